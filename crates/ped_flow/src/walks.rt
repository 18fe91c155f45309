//! What the paths of statements do to one scalar, statement by statement.

ghost use Rattle.std.specs.Prelude.{◌≡◌, ◌+◌, ◌<◌, ◌^◌};
ghost use Rattle.ped_tree.specs.Views.{stmt_tree, stmt_trees};
ghost use Rattle.ped_tree.specs.Numbering.{statement_count, statements_count};
ghost use Rattle.ped_tree.specs.Views.{head_of};
ghost use Rattle.ped_flow.specs.Summaries as Spec;
ghost use Rattle.ped_flow.specs.Kept.{name_of, constants_of};
ghost use Rattle.ped_flow.specs.Entries.{IsKnown, AreKnown};

use crate::asked::Scalar;
use crate::scalars::{condition, entry, exit, expression, items, start, target, targets};
use crate::skips::past;
use crate::summaries::Summary;
use ped_tree::{Do, Stmt};

/// What the paths of statements do to the scalar. The number of the first becomes that of the statement after them.
#[cycle(walk)]
pub(crate) fn statements(scalar: &Scalar, body: &[Stmt], number: &mut u32) -> Summary
    requires few { number.old + statements_count (stmt_trees body.now) < 2 ^ 32 }
    requires known { AreKnown scalar.now (stmt_trees body.now) number.old }
    ensures sum { result ≡ Spec.summary_of_all (constants_of scalar.now) (name_of scalar.now) (stmt_trees body.now) number.old }
    ensures number { number.new ≡ number.old + statements_count (stmt_trees body.now) }
{
    let mut summary = Summary::passing();
    for s in body {
        summary = summary.then(statement(scalar, s, number));
    }
    summary
}

/// What the paths of a statement do to the scalar. Its number becomes that of the statement after it. Where nothing
/// happens to the scalar, the statement is passed over.
#[cycle(walk)]
pub(crate) fn statement(scalar: &Scalar, s: &Stmt, number: &mut u32) -> Summary
    requires few { number.old + statement_count (stmt_tree s.now) < 2 ^ 32 }
    requires known { IsKnown scalar.now (stmt_tree s.now) number.old }
    ensures sum { result ≡ Spec.summary_of (constants_of scalar.now) (name_of scalar.now) (stmt_tree s.now) number.old }
    ensures number { number.new ≡ number.old + statement_count (stmt_tree s.now) }
{
    match past(scalar, s, *number) {
        Some(next) => {
            *number = next;
            return Summary::passing();
        }
        None => {
            return inside(scalar, s, number);
        }
    }
}

/// The same, from what it does itself and from the statements in it.
#[cycle(walk)]
fn inside(scalar: &Scalar, s: &Stmt, number: &mut u32) -> Summary
    requires few { number.old + statement_count (stmt_tree s.now) < 2 ^ 32 }
    requires known { IsKnown scalar.now (stmt_tree s.now) number.old }
    ensures sum { result ≡ Spec.summary_of (constants_of scalar.now) (name_of scalar.now) (stmt_tree s.now) number.old }
    ensures number { number.new ≡ number.old + statement_count (stmt_tree s.now) }
{
    let own = *number;
    match s {
        Stmt::Comment(_) => {
            return Summary::passing();
        }
        Stmt::Stop => {
            *number = own + 1;
            return Summary::stopped();
        }
        Stmt::Assign { left, right } => {
            *number = own + 1;
            return expression(scalar, right, own).then(target(scalar, left, own));
        }
        Stmt::Print(list) => {
            *number = own + 1;
            return items(scalar, list, own);
        }
        Stmt::Read(list) => {
            *number = own + 1;
            return targets(scalar, list, own);
        }
        Stmt::If {
            condition: c,
            then_part,
            else_part,
        } => {
            *number = own + 1;
            let first = statements(scalar, then_part, number);
            let second = statements(scalar, else_part, number);
            return condition(scalar, c, own).then(first.or(second));
        }
        Stmt::Do(d) => {
            *number = own + 1;
            let body = statements(scalar, &d.body, number);
            return entry(scalar, d, own).then(trips(scalar, d, own, body));
        }
    }
}

/// The trips of a DO and its exit, from what its body does.
pub(crate) fn trips(scalar: &Scalar, d: &Do, number: u32, body: Summary) -> Summary
    ensures { result ≡ Spec.summary_loop (name_of scalar.now) number (head_of d.now) (stmt_trees d.now.body.items) body }
{
    let trip = start(scalar, d, number).then(body);
    trip.repeated().then(exit(scalar, d, number))
}
