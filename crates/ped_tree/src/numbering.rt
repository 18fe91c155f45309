//! Statement numbers: executable statements count from 1 in text order, and those in the parts of an IF or a DO follow
//! it. Comments don't count. A search visits each statement at most once.

ghost use Rattle.std.specs.Prelude.{◌≡◌, ◌+◌, ◌<◌, ◌^◌, MatchOption};
ghost use Rattle.ped_tree.specs.Views.{stmt_tree, stmt_trees, program_tree};
ghost use Rattle.ped_tree.specs.Numbering.{numbered, all_numbered, at_place, statement_with, statement_count, statements_count};

use crate::declarations::Program;
use crate::statements::Stmt;

impl Program {
    /// How many numbered statements the program has.
    pub fn count(&self) -> u32
        requires { statements_count (program_tree self.now).body < 2 ^ 32 }
        ensures { result ≡ statements_count (program_tree self.now).body }
    {
        count_statements(&self.body)
    }

    /// The statement with this number, where there is one.
    #[tactic(auto, using(crate::proofs::Numbers::placing))]
    pub fn at(&self, number: u32) -> Option<&Stmt>
        ensures { MatchOption result (statement_with number (program_tree self.now) ≡ None) (λ s. statement_with number (program_tree self.now) ≡ Some (stmt_tree s.now)) }
    {
        if number == 0 {
            return None;
        }
        let mut place = number - 1;
        find_among(&self.body, &mut place)
    }
}

/// How many numbered statements a statement has, itself and those in its parts.
#[cycle(count)]
pub fn count_statement(statement: &Stmt) -> u32
    requires { statement_count (stmt_tree statement.now) < 2 ^ 32 }
    ensures { result ≡ statement_count (stmt_tree statement.now) }
{
    match statement {
        Stmt::If {
            condition: _,
            then_part,
            else_part,
        } => count_statements(then_part) + count_statements(else_part) + 1,
        Stmt::Do(d) => count_statements(&d.body) + 1,
        Stmt::Comment(_) => 0,
        Stmt::Assign { left: _, right: _ } | Stmt::Print(_) | Stmt::Read(_) | Stmt::Stop => 1,
    }
}

/// How many numbered statements these are, with those in their parts.
#[cycle(count)]
pub fn count_statements(statements: &[Stmt]) -> u32
    requires { statements_count (stmt_trees statements.now) < 2 ^ 32 }
    ensures { result ≡ statements_count (stmt_trees statements.now) }
{
    let mut total = 0;
    for statement in statements {
        total += count_statement(statement);
    }
    total
}

/// The statement at a place within this one, where it is at place 0. If there is none, the place
/// becomes one among the statements after it.
#[cycle(find)]
#[tactic(auto, using(crate::proofs::Numbers::placing))]
fn find<'a>(stmt: &'a Stmt, place: &mut u32) -> Option<&'a Stmt>
    ensures { MatchOption result (place.new + statement_count (stmt_tree stmt.now) ≡ place.old) (λ s. at_place (numbered (stmt_tree stmt.now)) place.old ≡ Some (stmt_tree s.now)) }
{
    if let Stmt::Comment(_) = stmt {
        return None;
    }
    if *place == 0 {
        return Some(stmt);
    }
    *place -= 1;
    match stmt {
        Stmt::If {
            condition: _,
            then_part,
            else_part,
        } => match find_among(then_part, place) {
            Some(found) => Some(found),
            None => find_among(else_part, place),
        },
        Stmt::Do(body) => find_among(&body.body, place),
        _ => None,
    }
}

/// The statement at a place among these, where the first numbered one is at place 0. If there is
/// none, the place becomes one among the statements after them.
#[cycle(find)]
#[tactic(auto, using(crate::proofs::Numbers::placing))]
fn find_among<'a>(stmts: &'a [Stmt], place: &mut u32) -> Option<&'a Stmt>
    ensures { MatchOption result (place.new + statements_count (stmt_trees stmts.now) ≡ place.old) (λ s. at_place (all_numbered (stmt_trees stmts.now)) place.old ≡ Some (stmt_tree s.now)) }
{
    for stmt in stmts {
        if let Some(found) = find(stmt, place) {
            return Some(found);
        }
    }
    None
}
