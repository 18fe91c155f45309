//! What the paths to the outermost loop that is or encloses a loop do to one scalar.

ghost use Rattle.std.specs.Prelude.{◌≡◌, ◌+◌, ◌<◌, ◌^◌, IfSome};
ghost use Rattle.ped_tree.specs.Views.{stmt_tree, stmt_trees};
ghost use Rattle.ped_tree.specs.Numbering.{statement_count, statements_count};
ghost use Rattle.ped_flow.specs.Summaries as Spec;
ghost use Rattle.ped_flow.specs.Kept.{name_of, constants_of};
ghost use Rattle.ped_flow.specs.Entries.{is_do, IsKnown, AreKnown};

use crate::asked::Scalar;
use crate::behind::at_once;
use crate::scalars::condition;
use crate::skips::{elsewhere, past};
use crate::summaries::Summary;
use crate::walks::statement;
use ped_tree::{Stmt, count_statements};

/// What the paths to the outermost loop do in statements. The number of the first becomes that of the statement after
/// them.
#[cycle(before)]
pub(crate) fn before_all(scalar: &Scalar, l: u32, body: &[Stmt], number: &mut u32) -> Summary
    requires few { number.old + statements_count (stmt_trees body.now) < 2 ^ 32 }
    requires known { AreKnown scalar.now (stmt_trees body.now) number.old }
    ensures sum { result ≡ Spec.summary_before_all (constants_of scalar.now) (name_of scalar.now) l (stmt_trees body.now) number.old }
    ensures number { number.new ≡ number.old + statements_count (stmt_trees body.now) }
{
    let mut summary = Summary::unreached();
    let mut way = Summary::passing();
    for s in body {
        let mut place = *number;
        summary = summary.or(way.then(before(scalar, l, s, &mut place)));
        way = way.then(statement(scalar, s, number));
    }
    // Paths that end on the way stay in the sum; no question looks at them.
    summary.or(way.then(Summary::unreached()))
}

/// What the paths to the outermost loop do in a statement. Its number becomes that of the statement after it.
/// Statements off the way are passed over.
#[cycle(before)]
fn before(scalar: &Scalar, l: u32, s: &Stmt, number: &mut u32) -> Summary
    requires few { number.old + statement_count (stmt_tree s.now) < 2 ^ 32 }
    requires known { IsKnown scalar.now (stmt_tree s.now) number.old }
    ensures sum { result ≡ Spec.summary_before (constants_of scalar.now) (name_of scalar.now) l (stmt_tree s.now) number.old }
    ensures number { number.new ≡ number.old + statement_count (stmt_tree s.now) }
{
    match off_way(scalar, l, s, *number) {
        Some(next) => {
            *number = next;
            return Summary::unreached();
        }
        None => {
            return before_inside(scalar, l, s, number);
        }
    }
}

/// The number after a statement through which no way leads to the outermost loop, and in which nothing happens to the
/// scalar, or which is another loop.
fn off_way(scalar: &Scalar, l: u32, s: &Stmt, number: u32) -> Option<u32>
    requires { IsKnown scalar.now (stmt_tree s.now) number }
    ensures unreached { IfSome result (λ next. Spec.summary_before (constants_of scalar.now) (name_of scalar.now) l (stmt_tree s.now) number ≡ Spec.unreached) }
    ensures number { IfSome result (λ next. next ≡ number + statement_count (stmt_tree s.now)) }
{
    match elsewhere(scalar, l, s, number) {
        Some(next) => {
            if is_loop(s) {
                return Some(next);
            }
            return past(scalar, s, number);
        }
        None => {
            return None;
        }
    }
}

/// Whether a statement is a loop.
fn is_loop(s: &Stmt) -> bool
    ensures { result ≡ is_do (stmt_tree s.now) }
{
    match s {
        Stmt::Do(_) => {
            return true;
        }
        Stmt::If {
            condition: _,
            then_part: _,
            else_part: _,
        } => {
            return false;
        }
        Stmt::Assign { left: _, right: _ } => {
            return false;
        }
        Stmt::Print(_) => {
            return false;
        }
        Stmt::Read(_) => {
            return false;
        }
        Stmt::Stop => {
            return false;
        }
        Stmt::Comment(_) => {
            return false;
        }
    }
}

/// The same, from the statement and those in it.
#[cycle(before)]
fn before_inside(scalar: &Scalar, l: u32, s: &Stmt, number: &mut u32) -> Summary
    requires few { number.old + statement_count (stmt_tree s.now) < 2 ^ 32 }
    requires known { IsKnown scalar.now (stmt_tree s.now) number.old }
    ensures sum { result ≡ Spec.summary_before (constants_of scalar.now) (name_of scalar.now) l (stmt_tree s.now) number.old }
    ensures number { number.new ≡ number.old + statement_count (stmt_tree s.now) }
{
    let own = *number;
    match s {
        Stmt::Comment(_) => {
            return Summary::unreached();
        }
        Stmt::Stop => {
            *number = own + 1;
            return Summary::unreached();
        }
        Stmt::Assign { left: _, right: _ } => {
            *number = own + 1;
            return Summary::unreached();
        }
        Stmt::Print(_) => {
            *number = own + 1;
            return Summary::unreached();
        }
        Stmt::Read(_) => {
            *number = own + 1;
            return Summary::unreached();
        }
        Stmt::If {
            condition: c,
            then_part,
            else_part,
        } => {
            *number = own + 1;
            let first = before_all(scalar, l, then_part, number);
            let second = before_all(scalar, l, else_part, number);
            return condition(scalar, c, own).then(first.or(second));
        }
        Stmt::Do(d) => {
            let last = own + count_statements(&d.body);
            *number = last + 1;
            return at_once(own <= l && l <= last);
        }
    }
}
