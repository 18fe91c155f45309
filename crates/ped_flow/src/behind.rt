//! What the paths from the exit of a loop do to one scalar.

ghost use Rattle.std.specs.Prelude.{◌≡◌, ◌+◌, ◌<◌, ◌^◌};
ghost use Rattle.ped_tree.specs.Views.{stmt_tree, stmt_trees};
ghost use Rattle.ped_tree.specs.Numbering.{statement_count, statements_count};
ghost use Rattle.ped_tree.specs.Views.{head_of};
ghost use Rattle.ped_flow.specs.Summaries as Spec;
ghost use Rattle.ped_flow.specs.Kept.{name_of, constants_of};
ghost use Rattle.ped_flow.specs.Entries.{IsKnown, AreKnown};

use crate::asked::Scalar;
use crate::skips::elsewhere;
use crate::summaries::Summary;
use crate::walks::{statement, statements, trips};
use ped_tree::{Do, Stmt};

/// What the paths from the exit of the loop `l` do in statements. The number of the first becomes that of the statement
/// after them.
#[cycle(behind)]
pub(crate) fn behind_all(scalar: &Scalar, l: u32, body: &[Stmt], number: &mut u32) -> Summary
    requires few { number.old + statements_count (stmt_trees body.now) < 2 ^ 32 }
    requires known { AreKnown scalar.now (stmt_trees body.now) number.old }
    ensures sum { result ≡ Spec.summary_behind_all (constants_of scalar.now) (name_of scalar.now) l (stmt_trees body.now) number.old }
    ensures number { number.new ≡ number.old + statements_count (stmt_trees body.now) }
{
    let mut summary = Summary::unreached();
    for s in body {
        let own = *number;
        let here = behind(scalar, l, s, number);
        summary = through(scalar, summary, s, own).or(here);
    }
    summary
}

/// Paths that go on through a statement. Where none goes on, there is nothing to look at.
fn through(scalar: &Scalar, before: Summary, s: &Stmt, number: u32) -> Summary
    requires few { number + statement_count (stmt_tree s.now) < 2 ^ 32 }
    requires known { IsKnown scalar.now (stmt_tree s.now) number }
    ensures { result ≡ Spec.summary_in_turn before (Spec.summary_of (constants_of scalar.now) (name_of scalar.now) (stmt_tree s.now) number) }
{
    if before.is_cut() {
        return before;
    }
    let mut place = number;
    before.then(statement(scalar, s, &mut place))
}

/// What the paths from the exit of the loop `l` do in a statement. Its number becomes that of the statement after it. A
/// statement without the loop is passed over.
#[cycle(behind)]
fn behind(scalar: &Scalar, l: u32, s: &Stmt, number: &mut u32) -> Summary
    requires few { number.old + statement_count (stmt_tree s.now) < 2 ^ 32 }
    requires known { IsKnown scalar.now (stmt_tree s.now) number.old }
    ensures sum { result ≡ Spec.summary_behind (constants_of scalar.now) (name_of scalar.now) l (stmt_tree s.now) number.old }
    ensures number { number.new ≡ number.old + statement_count (stmt_tree s.now) }
{
    match elsewhere(scalar, l, s, *number) {
        Some(next) => {
            *number = next;
            return Summary::unreached();
        }
        None => {
            return behind_inside(scalar, l, s, number);
        }
    }
}

/// The same, from the statement and those in it.
#[cycle(behind)]
fn behind_inside(scalar: &Scalar, l: u32, s: &Stmt, number: &mut u32) -> Summary
    requires few { number.old + statement_count (stmt_tree s.now) < 2 ^ 32 }
    requires known { IsKnown scalar.now (stmt_tree s.now) number.old }
    ensures sum { result ≡ Spec.summary_behind (constants_of scalar.now) (name_of scalar.now) l (stmt_tree s.now) number.old }
    ensures number { number.new ≡ number.old + statement_count (stmt_tree s.now) }
{
    let own = *number;
    match s {
        Stmt::Comment(_) => {
            return Summary::unreached();
        }
        Stmt::Stop => {
            *number = own + 1;
            return Summary::unreached();
        }
        Stmt::Assign { left: _, right: _ } => {
            *number = own + 1;
            return Summary::unreached();
        }
        Stmt::Print(_) => {
            *number = own + 1;
            return Summary::unreached();
        }
        Stmt::Read(_) => {
            *number = own + 1;
            return Summary::unreached();
        }
        Stmt::If {
            condition: _,
            then_part,
            else_part,
        } => {
            *number = own + 1;
            let first = behind_all(scalar, l, then_part, number);
            let second = behind_all(scalar, l, else_part, number);
            return first.or(second);
        }
        Stmt::Do(d) => {
            *number = own + 1;
            let inner = behind_all(scalar, l, &d.body, number);
            return at_once(l == own).or(further(scalar, inner, d, own));
        }
    }
}

/// Where this is so, a path on which nothing happens; else no path.
pub(crate) fn at_once(test: bool) -> Summary
    ensures { result ≡ Spec.summary_at_once test }
{
    if test {
        return Summary::passing();
    }
    Summary::unreached()
}

/// Paths that go on after an iteration of a DO: further trips and its exit. Where none goes on, there is nothing to
/// look at.
fn further(scalar: &Scalar, before: Summary, d: &Do, number: u32) -> Summary
    requires few { number + 1 + statements_count (stmt_trees d.now.body.items) < 2 ^ 32 }
    requires known { AreKnown scalar.now (stmt_trees d.now.body.items) (number + 1) }
    ensures { result ≡ Spec.summary_in_turn before (Spec.summary_loop (name_of scalar.now) number (head_of d.now) (stmt_trees d.now.body.items) (Spec.summary_of_all (constants_of scalar.now) (name_of scalar.now) (stmt_trees d.now.body.items) (number + 1))) }
{
    if before.is_cut() {
        return before;
    }
    let mut place = number + 1;
    let body = statements(scalar, &d.body, &mut place);
    before.then(trips(scalar, d, number, body))
}
