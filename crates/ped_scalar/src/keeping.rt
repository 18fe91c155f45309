//! Which statements a step keeps.

ghost use Rattle.std.specs.Prelude.{◌≡◌, ◌+◌, ◌<◌, ◌^◌, ◌≤◌, map, IfOk};
ghost use Rattle.std.specs.List.{range_with_len};
ghost use Rattle.ped_tree.specs.Views.{stmt_trees, program_tree};
ghost use Rattle.ped_tree.specs.Numbering.{statements_count};
ghost use Rattle.ped_scalar.specs.Expanding as Spec;

use ped_base::{Listed, NoMemory};
use ped_rules::Keep;
use ped_tree::{Do, Program, count_statements};
use std::alloc::Global;

/// Each statement of a program with its number after the step: those after the DO with this number grow by one where
/// `further` says so.
pub(crate) fn expand_kept(
    alloc: Global,
    program: &Program,
    number: u32,
    d: &Do,
    further: bool,
) -> Result<Keep, NoMemory>
    requires few { statements_count (program_tree program.now).body + 1 < 2 ^ 32 }
    requires inside { number + statements_count (stmt_trees d.now.body.items) ≤ statements_count (program_tree program.now).body }
    ensures { IfOk result (λ keep. keep ≡ Spec.expand_kept (program_tree program.now) number (stmt_trees d.now.body.items) further) }
{
    let end = number + count_statements(&d.body);
    kept(alloc, count_statements(&program.body), end, further)
}

/// This many statements, where the numbers after `end` grow by one if `further` says so.
fn kept(alloc: Global, count: u32, end: u32, further: bool) -> Result<Keep, NoMemory>
    requires { count + 1 < 2 ^ 32 }
    ensures { IfOk result (λ keep. keep ≡ map (λ n. (n, Spec.moved_behind end further n)) (range_with_len 1 count)) }
{
    let mut keep = Listed::new(alloc);
    for n in 0..count {
        let behind = moved_behind(end, further, n + 1);
        keep.push((n + 1, behind))?;
    }
    Ok(keep)
}

/// The number of a statement after the step.
fn moved_behind(end: u32, further: bool, number: u32) -> u32
    requires { number + 1 < 2 ^ 32 }
    ensures { result ≡ Spec.moved_behind end further number }
{
    if end < number && further {
        number + 1
    } else {
        number
    }
}
