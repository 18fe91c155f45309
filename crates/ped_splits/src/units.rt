//! Units: the statements of the body of a DO, each with the comments before it.

ghost use Rattle.std.specs.Prelude.{◌≡◌, ◌==◌, ◌+◌, ◌<◌, ◌≤◌, ◌^◌, ◌++◌, drop, length, replicate, slice_range, IfOk, OnOk, if◌then◌else◌};
ghost use Rattle.ped_tree.specs.Numbering.{statements_count};
ghost use Rattle.ped_tree.specs.Views.{stmt_trees};
ghost use Rattle.ped_splits.specs.Units as Spec;
ghost use Rattle.ped_splits.specs.CodeUnits.{AreShort, unit_trees, home_of};

use ped_base::NoMemory;
use ped_rules::{are_comments, is_comment};
use ped_tree::{Do, Stmt, count_statements};
use std::alloc::Global;

/// A unit: a statement with the comments before it, the last one also with those after it.
#[derive(Clone, Copy)]
pub(crate) struct Unit<'a> {
    /// Its statements.
    pub(crate) statements: &'a [Stmt],
}

/// A DO that is taken apart.
#[derive(Clone, Copy)]
pub(crate) struct Parted<'a> {
    /// The number of the DO.
    pub(crate) number: u32,
    /// The DO.
    pub(crate) statement: &'a Do,
    /// The units of its body.
    pub(crate) units: &'a [Unit<'a>],
    /// For each numbered statement of its body the number of its unit, from 0.
    pub(crate) homes: &'a [usize],
}

/// The units of a body, in text order.
pub(crate) fn units_of<'a>(alloc: Global, body: &'a [Stmt]) -> Result<Vec<Unit<'a>>, NoMemory>
    ensures { IfOk result (λ us. unit_trees us.items ≡ Spec.units (stmt_trees body.now)) }
{
    let mut units = Vec::new(alloc);
    let mut from = 0;
    for (place, statement) in body.iter().enumerate() {
        if !is_comment(statement) {
            let behind = end_of_unit(body, place);
            units.push(Unit {
                statements: part(body, from, behind),
            })?;
            from = behind;
        }
    }
    Ok(units)
}

/// The statements from a place to one before another.
fn part(body: &[Stmt], from: usize, behind: usize) -> &[Stmt]
    requires from { from ≤ behind }
    requires behind { behind ≤ length body.now }
    ensures { result.now ≡ slice_range body.now from behind }
{
    &body[from..behind]
}

/// The place after the unit of the statement at this place.
fn end_of_unit(body: &[Stmt], place: usize) -> usize
    requires { place < length body.now }
    ensures { result ≡ (if statements_count (stmt_trees (drop (place + 1) body.now)) == 0 then length body.now else place + 1) }
{
    if are_comments(&body[place + 1..]) {
        body.len()
    } else {
        place + 1
    }
}

/// For each numbered statement of units, in text order, the number of its unit, from 0.
pub(crate) fn homes_of(alloc: Global, units: &[Unit]) -> Result<Vec<usize>, NoMemory>
    requires { AreShort (unit_trees units.now) }
    ensures { IfOk result (λ found. found.items ≡ Spec.homes 0 (unit_trees units.now)) }
{
    let mut homes = Vec::new(alloc);
    for (place, unit) in units.iter().enumerate() {
        add_times(&mut homes, place, count_statements(unit.statements))?;
    }
    Ok(homes)
}

/// Adds a number this many times.
fn add_times(numbers: &mut Vec<usize>, number: usize, times: u32) -> Result<(), NoMemory>
    ensures { OnOk result (numbers.new.items ≡ numbers.old.items ++ replicate times number) }
{
    for _time in 0..times {
        numbers.push(number)?;
    }
    Ok(())
}

/// The unit of the statement with this number, where it follows the one with the number `first` and has a unit.
pub(crate) fn home_at(first: u32, homes: &[usize], statement: u32) -> Option<usize>
    ensures { result ≡ home_of first homes.now statement }
{
    if first < statement {
        match homes.get((statement - first - 1) as usize) {
            Some(home) => Some(*home),
            None => None,
        }
    } else {
        None
    }
}
