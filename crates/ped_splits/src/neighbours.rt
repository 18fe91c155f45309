//! The DO that comes next after a DO.

ghost use Rattle.std.specs.Prelude.{◌≡◌, ◌+◌, ◌<◌, ◌^◌, MatchOption};
ghost use Rattle.ped_tree.specs.Views.{program_tree, stmt_tree, stmt_trees, head_of};
ghost use Rattle.ped_tree.specs.Numbering.{statement_count, statements_count};
ghost use Rattle.ped_splits.specs.CodePairs.{IsPair, two_in, two_with, two_from, two_among, two_under, two_to, next_in};
ghost use Rattle.ped_splits.specs.Neighbours.{Neighbour};

use ped_rules::is_comment;
use ped_tree::{Do, Program, Stmt, count_statement, count_statements};

/// Two DO loops, one after the other in the same list.
#[derive(Clone, Copy)]
pub(crate) struct Pair<'a> {
    /// The number of the first.
    pub(crate) number: u32,
    /// The first.
    pub(crate) own: &'a Do,
    /// The comments between the two.
    pub(crate) between: &'a [Stmt],
    /// The second.
    pub(crate) next: &'a Do,
}

impl<'a> Pair<'a> {
    /// The number of the second.
    pub(crate) fn next_number(&self) -> u32
        requires { self.now.number + 1 + statements_count (stmt_trees self.now.own.now.body.items) < 2 ^ 32 }
        ensures { result ≡ self.now.number + 1 + statements_count (stmt_trees self.now.own.now.body.items) }
    {
        self.number + 1 + count_statements(&self.own.body)
    }
}

/// The DO with this number and the next one in its list, where nothing but comments is between.
pub(crate) fn pair_at<'a>(program: &'a Program, number: u32) -> Option<Pair<'a>>
    requires { statements_count (program_tree program.now).body + 1 < 2 ^ 32 }
    ensures { MatchOption result (Neighbour (program_tree program.now) number → ⊥) (λ p. (p.number ≡ number) × IsPair (program_tree program.now) p) }
{
    pair_among(&program.body, 1, number)
}

/// The same among statements, of which the first has the number `first`.
#[cycle(pair)]
fn pair_among<'a>(statements: &'a [Stmt], first: u32, number: u32) -> Option<Pair<'a>>
    requires { first + statements_count (stmt_trees statements.now) < 2 ^ 32 }
    ensures { two_in result ≡ two_among (stmt_trees statements.now) first number }
{
    let mut next = first;
    for (place, statement) in statements.iter().enumerate() {
        let behind = next + count_statement(statement);
        if number < behind {
            if next == number {
                return pair_from(number, statement, &statements[place + 1..]);
            }
            return pair_under(statement, next, number);
        }
        next = behind;
    }
    None
}

/// The same in the parts of a statement, which has the number `first`.
#[cycle(pair)]
fn pair_under<'a>(statement: &'a Stmt, first: u32, number: u32) -> Option<Pair<'a>>
    requires { first + statement_count (stmt_tree statement.now) < 2 ^ 32 }
    ensures { two_in result ≡ two_under (stmt_tree statement.now) first number }
{
    match statement {
        Stmt::Do(d) => {
            return pair_among(&d.body, first + 1, number);
        }
        Stmt::If {
            condition: _,
            then_part,
            else_part,
        } => {
            let behind = first + 1 + count_statements(then_part);
            if number < behind {
                return pair_among(then_part, first + 1, number);
            }
            return pair_among(else_part, behind, number);
        }
        Stmt::Assign { left: _, right: _ }
        | Stmt::Print(_)
        | Stmt::Read(_)
        | Stmt::Stop
        | Stmt::Comment(_) => {
            return None;
        }
    }
}

/// A statement, which has this number, and the next DO among those after it, where it is a DO, too.
fn pair_from<'a>(number: u32, statement: &'a Stmt, others: &'a [Stmt]) -> Option<Pair<'a>>
    ensures { two_in result ≡ two_from number (stmt_tree statement.now) (stmt_trees others.now) }
{
    match statement {
        Stmt::Do(own) => {
            return pair_of(number, own, others);
        }
        Stmt::Assign { left: _, right: _ }
        | Stmt::If {
            condition: _,
            then_part: _,
            else_part: _,
        }
        | Stmt::Print(_)
        | Stmt::Read(_)
        | Stmt::Stop
        | Stmt::Comment(_) => {
            return None;
        }
    }
}

/// The DO and the next one among the statements after it, where nothing but comments is before that.
fn pair_of<'a>(number: u32, own: &'a Do, others: &'a [Stmt]) -> Option<Pair<'a>>
    ensures { two_in result ≡ two_with number (head_of own.now) (stmt_trees own.now.body.items) (next_in (stmt_trees others.now)) }
{
    for (place, statement) in others.iter().enumerate() {
        if !is_comment(statement) {
            return pair_with(number, own, &others[..place], statement);
        }
    }
    None
}

/// The DO and this statement after it, where that is a DO, too, with the comments between.
fn pair_with<'a>(
    number: u32,
    own: &'a Do,
    between: &'a [Stmt],
    statement: &'a Stmt,
) -> Option<Pair<'a>>
    ensures { two_in result ≡ two_to number (head_of own.now) (stmt_trees own.now.body.items) (stmt_trees between.now) (stmt_tree statement.now) }
{
    match statement {
        Stmt::Do(next) => {
            return Some(Pair {
                number,
                own,
                between,
                next,
            });
        }
        Stmt::Assign { left: _, right: _ }
        | Stmt::If {
            condition: _,
            then_part: _,
            else_part: _,
        }
        | Stmt::Print(_)
        | Stmt::Read(_)
        | Stmt::Stop
        | Stmt::Comment(_) => {
            return None;
        }
    }
}
