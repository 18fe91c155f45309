//! References for which constants alone decide whether they are reached (ParaScope).

ghost use Rattle.std.specs.Prelude.{◌≡◌};
ghost use Rattle.std.specs.List.{list_all};
ghost use Rattle.ped_refs.specs.Loops.{loop_of, nest_of};
ghost use Rattle.ped_refs.specs.Occurrences.{reference_of};
ghost use Rattle.ped_graph.specs.Marks as Spec;
ghost use Rattle.ped_graph.specs.Guards as Guards;

use ped_refs::{Loop, Occurrence};
use ped_tree::constants::{Consts, constant};

/// Whether the loops around a reference have constant bounds and no IF encloses it.
pub fn is_firm(consts: &Consts, guards: &[bool], occurrence: &Occurrence) -> bool
    ensures { result ≡ Spec.is_firm consts.now guards.now (reference_of occurrence.now) }
{
    have_constant_bounds(consts, &occurrence.nest) && !is_guarded(guards, occurrence.statement)
}

/// Whether the statement with this number is in an IF.
fn is_guarded(guards: &[bool], number: u32) -> bool
    ensures { result ≡ Guards.is_guarded guards.now number }
{
    match guards.get((number as usize).saturating_sub(1)) {
        Some(inside) => *inside,
        None => false,
    }
}

/// Whether loops have constant bounds within 2^62 of zero.
fn have_constant_bounds(consts: &Consts, nest: &[Loop]) -> bool
    ensures { result ≡ list_all (Spec.has_constant_bounds consts.now) (nest_of nest.now) }
{
    for l in nest {
        if !has_constant_bounds(consts, l) {
            return false;
        }
    }
    true
}

fn has_constant_bounds(consts: &Consts, l: &Loop) -> bool
    ensures { result ≡ Spec.has_constant_bounds consts.now (loop_of l.now) }
{
    is_near_constant(constant(&l.statement.first, consts))
        && is_near_constant(constant(&l.statement.last, consts))
}

fn is_near_constant(value: Option<i128>) -> bool
    ensures { result ≡ Spec.is_near_constant value }
{
    match value {
        Some(n) => n.unsigned_abs() <= 1 << 62,
        None => false,
    }
}
