//! The first statement that reads a scalar outside the bodies of loops over it.

ghost use Rattle.std.specs.Prelude.{◌≡◌, ◌+◌, ◌<◌, ◌^◌, map};
ghost use Rattle.std.specs.List.{flat_map};
ghost use Rattle.ped_tree.specs.Views.{expr_tree, stmt_tree, stmt_trees};
ghost use Rattle.ped_tree.specs.Numbering.{statement_count, statements_count};
ghost use Rattle.ped_flow.specs.Events as Event;
ghost use Rattle.ped_flow.specs.Kept as Spec;
ghost use Rattle.ped_flow.specs.Kept.{name_of, constants_of};
ghost use Rattle.ped_flow.specs.Entries.{IsKnown, AreKnown};

use crate::asked::Scalar;
use crate::scalars::{condition, entry, expression, is_same, items, target};
use crate::skips::shut;
use crate::summaries::least;
use ped_tree::{Expr, Stmt};

/// The first statement in a list that reads the scalar outside the bodies of all loops of it.
#[cycle(outside)]
pub(crate) fn outside_all(scalar: &Scalar, body: &[Stmt], number: &mut u32) -> Option<u32>
    requires few { number.old + statements_count (stmt_trees body.now) < 2 ^ 32 }
    requires known { AreKnown scalar.now (stmt_trees body.now) number.old }
    ensures first { result ≡ Spec.all_first_outside (constants_of scalar.now) (name_of scalar.now) (stmt_trees body.now) number.old }
    ensures number { number.new ≡ number.old + statements_count (stmt_trees body.now) }
{
    let mut first = None;
    for s in body {
        first = least(first, outside(scalar, s, number));
    }
    first
}

/// The first statement, of this one and those in it, that reads the scalar outside the bodies of all loops of it. Where
/// nothing does, the statement is passed over.
#[cycle(outside)]
fn outside(scalar: &Scalar, s: &Stmt, number: &mut u32) -> Option<u32>
    requires few { number.old + statement_count (stmt_tree s.now) < 2 ^ 32 }
    requires known { IsKnown scalar.now (stmt_tree s.now) number.old }
    ensures first { result ≡ Spec.first_outside (constants_of scalar.now) (name_of scalar.now) (stmt_tree s.now) number.old }
    ensures number { number.new ≡ number.old + statement_count (stmt_tree s.now) }
{
    match shut(scalar, s, *number) {
        Some(next) => {
            *number = next;
            return None;
        }
        None => {
            return outside_inside(scalar, s, number);
        }
    }
}

/// The same, from the statement and those in it.
#[cycle(outside)]
#[tactic(auto, using(crate::proofs::OutsideSteps::reading))]
fn outside_inside(scalar: &Scalar, s: &Stmt, number: &mut u32) -> Option<u32>
    requires few { number.old + statement_count (stmt_tree s.now) < 2 ^ 32 }
    requires known { IsKnown scalar.now (stmt_tree s.now) number.old }
    ensures first { result ≡ Spec.first_outside (constants_of scalar.now) (name_of scalar.now) (stmt_tree s.now) number.old }
    ensures number { number.new ≡ number.old + statement_count (stmt_tree s.now) }
{
    let own = *number;
    match s {
        Stmt::Comment(_) => {
            return None;
        }
        Stmt::Stop => {
            *number = own + 1;
            return None;
        }
        Stmt::Assign { left, right } => {
            *number = own + 1;
            return least(
                expression(scalar, right, own).first,
                target(scalar, left, own).first,
            );
        }
        Stmt::Print(list) => {
            *number = own + 1;
            return items(scalar, list, own).first;
        }
        Stmt::Read(list) => {
            *number = own + 1;
            return any_target(scalar, list, own);
        }
        Stmt::If {
            condition: c,
            then_part,
            else_part,
        } => {
            *number = own + 1;
            let first = outside_all(scalar, then_part, number);
            let second = outside_all(scalar, else_part, number);
            return least(condition(scalar, c, own).first, least(first, second));
        }
        Stmt::Do(d) => {
            *number = own + 1;
            let body = outside_all(scalar, &d.body, number);
            let other = unless(is_same(scalar.name, &d.variable), body);
            return least(entry(scalar, d, own).first, other);
        }
    }
}

/// Nothing, where the test holds.
pub(crate) fn unless(test: bool, number: Option<u32>) -> Option<u32>
    ensures { result ≡ Spec.unless test number }
{
    if test {
        return None;
    }
    number
}

/// The statement, where an item of a READ has a subscript that reads the scalar.
#[tactic(auto, using(crate::proofs::OutsideSteps::reading))]
fn any_target(scalar: &Scalar, lefts: &[Expr], number: u32) -> Option<u32>
    ensures { result ≡ Spec.first_reader (name_of scalar.now) (flat_map (Event.left_events (constants_of scalar.now) number) (map expr_tree lefts.now)) }
{
    let mut first = None;
    for left in lefts {
        first = least(first, target(scalar, left, number).first);
    }
    first
}
