//! Which statements a step keeps.

ghost use Rattle.std.specs.Prelude.{◌≡◌, ◌+◌, ◌<◌, ◌^◌, ◌≤◌, map, filter, not, IfOk};
ghost use Rattle.std.specs.List.{range_with_len};
ghost use Rattle.ped_tree.specs.Views.{program_tree};
ghost use Rattle.ped_tree.specs.Numbering.{statements_count};
ghost use Rattle.ped_rules.specs.KeepMaps as Spec;

use ped_base::{Listed, NoMemory};
use ped_loop_runs::Keep;
use ped_tree::{Program, count_statements};
use std::alloc::Global;

/// Each statement of a program with its number after a step: the numbers after `end` grow by `further`.
pub fn moved_by(alloc: Global, program: &Program, end: u32, further: u32) -> Result<Keep, NoMemory>
    requires { statements_count (program_tree program.now).body + further < 2 ^ 32 }
    ensures { IfOk result (λ keep. keep ≡ Spec.moved_by end further (program_tree program.now)) }
{
    moved_all(alloc, count_statements(&program.body), end, further)
}

/// This many statements, where the numbers after `end` grow by `further`.
fn moved_all(alloc: Global, count: u32, end: u32, further: u32) -> Result<Keep, NoMemory>
    requires { count + further < 2 ^ 32 }
    ensures { IfOk result (λ keep. keep ≡ map (λ n. (n, Spec.moved end further n)) (range_with_len 1 count)) }
{
    let mut keep = Listed::new(alloc);
    for n in 0..count {
        let behind = moved(end, further, n + 1);
        keep.push((n + 1, behind))?;
    }
    Ok(keep)
}

/// The number of a statement after a step.
fn moved(end: u32, further: u32, number: u32) -> u32
    requires { number + further < 2 ^ 32 }
    ensures { result ≡ Spec.moved end further number }
{
    if end < number {
        number + further
    } else {
        number
    }
}

/// Each statement of a program with the same number after a step, without those with numbers from `first` to `last`.
pub fn all_but(alloc: Global, program: &Program, first: u32, last: u32) -> Result<Keep, NoMemory>
    requires { statements_count (program_tree program.now).body < 2 ^ 32 }
    ensures { IfOk result (λ keep. keep ≡ Spec.all_but first last (program_tree program.now)) }
{
    kept_but(alloc, count_statements(&program.body), first, last)
}

/// This many statements, without those with numbers from `first` to `last`.
fn kept_but(alloc: Global, count: u32, first: u32, last: u32) -> Result<Keep, NoMemory>
    ensures { IfOk result (λ keep. keep ≡ filter (λ p. not (Spec.is_between first last p.0)) (map (λ n. (n, n)) (range_with_len 1 count))) }
{
    let mut keep = Listed::new(alloc);
    for n in 0..count {
        if !is_between(first, last, n + 1) {
            keep.push((n + 1, n + 1))?;
        }
    }
    Ok(keep)
}

fn is_between(first: u32, last: u32, number: u32) -> bool
    ensures { result ≡ Spec.is_between first last number }
{
    first <= number && number <= last
}
