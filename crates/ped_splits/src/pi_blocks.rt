//! Pi-blocks of units, and their order.

ghost use Rattle.std.specs.Prelude.{◌≡◌, ◌≤◌, ◌<◌, ◌-◌, ◌==◌, ◌∷◌, ℕ, [], List, map, length, not, slice_index_or, IfOk, MatchOption};
ghost use Rattle.std.specs.List.{filter, range_with_len};
ghost use Rattle.ped_splits.specs.PiBlocks as Spec;
ghost use Rattle.ped_splits.specs.CodeUnits.{AreBelow, leads as Leads, leaders as Leaders};

use ped_base::{Listed, NoMemory};
use ped_bits::Matrix;
use std::alloc::Global;

/// The pi-blocks of all units, in order.
pub(crate) fn pi_blocks(alloc: Global, reach: &Matrix) -> Result<Vec<Listed<usize>>, NoMemory>
    ensures { IfOk result (λ found. found.items ≡ Spec.pi_blocks reach.now) }
{
    let mut pi_blocks = Vec::new(alloc);
    let mut left = all_units(alloc, reach)?;
    let mut leaders = all_leaders(alloc, reach, &left)?;
    for _round in 0..reach.width() {
        match first_free(&left, &leaders) {
            Some(first) => {
                let block = pi_block_of(alloc, reach, &left, first)?;
                leaders = without(alloc, reach, &leaders, block.as_slice())?;
                left = behind(alloc, reach, &left, first)?;
                pi_blocks.push(block)?;
            }
            None => {
                return Ok(pi_blocks);
            }
        }
    }
    Ok(pi_blocks)
}

/// All units.
fn all_units(alloc: Global, reach: &Matrix) -> Result<Vec<usize>, NoMemory>
    ensures { IfOk result (λ all. all.items ≡ range_with_len 0 (length reach.now)) }
{
    let mut all = Vec::new(alloc);
    for unit in 0..reach.width() {
        all.push(unit)?;
    }
    Ok(all)
}

/// For each unit how many of these lead to it and not it to them.
fn all_leaders(alloc: Global, reach: &Matrix, left: &[usize]) -> Result<Vec<usize>, NoMemory>
    requires { AreBelow (length reach.now) left.now }
    ensures { IfOk result (λ all. all.items ≡ map (Leaders reach.now left.now) (range_with_len 0 (length reach.now))) }
{
    let mut all = Vec::new(alloc);
    for unit in 0..reach.width() {
        all.push(count_leaders(reach, left, unit))?;
    }
    Ok(all)
}

/// For each unit how many still lead to it where these no longer do.
fn without(
    alloc: Global,
    reach: &Matrix,
    leaders: &[usize],
    gone: &[usize],
) -> Result<Vec<usize>, NoMemory>
    requires length { length leaders.now ≡ length reach.now }
    requires below { AreBelow (length reach.now) gone.now }
    requires enough { (i : ℕ) → i < length reach.now → Leaders reach.now gone.now i ≤ slice_index_or leaders.now i 0 }
    ensures { IfOk result (λ all. all.items ≡ map (λ i. slice_index_or leaders.now i 0 - Leaders reach.now gone.now i) (range_with_len 0 (length reach.now))) }
{
    let mut all = Vec::new(alloc);
    for unit in 0..reach.width() {
        all.push(leaders[unit] - count_leaders(reach, gone, unit))?;
    }
    Ok(all)
}

/// How many of these units lead to this one and not it to them.
fn count_leaders(reach: &Matrix, units: &[usize], unit: usize) -> usize
    requires units { AreBelow (length reach.now) units.now }
    requires unit { unit < length reach.now }
    ensures { result ≡ Leaders reach.now units.now unit }
{
    let mut count = 0;
    for other in units {
        if leads(reach, *other, unit) {
            count += 1;
        }
    }
    count
}

/// Whether the first unit leads to the second and not the second to the first.
fn leads(reach: &Matrix, from: usize, to: usize) -> bool
    requires from { from < length reach.now }
    requires to { to < length reach.now }
    ensures { result ≡ Leads reach.now from to }
{
    is_reached(reach, from, to) && !is_reached(reach, to, from)
}

/// Whether two units stay in one pi-block.
fn are_together(reach: &Matrix, one: usize, other: usize) -> bool
    requires one { one < length reach.now }
    requires other { other < length reach.now }
    ensures { result ≡ Spec.are_together reach.now one other }
{
    one == other || is_reached(reach, one, other) && is_reached(reach, other, one)
}

/// Whether arrows lead from one unit to another.
fn is_reached(reach: &Matrix, from: usize, to: usize) -> bool
    requires from { from < length reach.now }
    requires to { to < length reach.now }
    ensures { result ≡ Spec.reaches reach.now from to }
{
    reach.get(from, to)
}

/// The first of these units to which none leads.
fn first_free(left: &[usize], leaders: &[usize]) -> Option<usize>
    requires { AreBelow (length leaders.now) left.now }
    ensures { MatchOption result (filter (λ i. slice_index_or leaders.now i 0 == 0) left.now ≡ [])
        (λ first. (rest : List ℕ) × (filter (λ i. slice_index_or leaders.now i 0 == 0) left.now ≡ first ∷ rest)) }
{
    for unit in left {
        if leaders[*unit] == 0 {
            return Some(*unit);
        }
    }
    None
}

/// Those of these units that are of the pi-block of this one.
fn pi_block_of(
    alloc: Global,
    reach: &Matrix,
    left: &[usize],
    first: usize,
) -> Result<Listed<usize>, NoMemory>
    requires left { AreBelow (length reach.now) left.now }
    requires first { first < length reach.now }
    ensures { IfOk result (λ block. block ≡ filter (Spec.are_together reach.now first) left.now) }
{
    let mut block = Listed::new(alloc);
    for unit in left {
        if are_together(reach, first, *unit) {
            block.push(*unit)?;
        }
    }
    Ok(block)
}

/// Those of these units that aren't of the pi-block of this one.
fn behind(
    alloc: Global,
    reach: &Matrix,
    left: &[usize],
    first: usize,
) -> Result<Vec<usize>, NoMemory>
    requires left { AreBelow (length reach.now) left.now }
    requires first { first < length reach.now }
    ensures { IfOk result (λ rest. rest.items ≡ filter (λ k. not (Spec.are_together reach.now first k)) left.now) }
{
    let mut rest = Vec::new(alloc);
    for unit in left {
        if !are_together(reach, first, *unit) {
            rest.push(*unit)?;
        }
    }
    Ok(rest)
}
