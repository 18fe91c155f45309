//! The only DO in the body of another (Allen and Kennedy, section 5.2).

ghost use Rattle.std.specs.Prelude.{◌≡◌, ◌==◌, MatchOption, Some, None, true, false};
ghost use Rattle.ped_tree.specs.Views.{stmt_tree, stmt_trees, head_of};
ghost use Rattle.ped_tree.specs.Numbering.{statement_count, statements_count};
ghost use Rattle.ped_rules.specs.OnlyLoops as Spec;

use ped_tree::{Do, Stmt};

/// The only DO among these statements, where nothing but comments is next to it.
pub fn only_loop<'a>(statements: &'a [Stmt]) -> Option<&'a Do>
    ensures { MatchOption result (Spec.only_loop (stmt_trees statements.now) ≡ None) (λ d. Spec.only_loop (stmt_trees statements.now) ≡ Some (head_of d.now, stmt_trees d.now.body.items)) }
{
    for (i, statement) in statements.iter().enumerate() {
        match statement {
            Stmt::Comment(_) => {}
            Stmt::Do(d) => {
                return alone(d, &statements[i + 1..]);
            }
            Stmt::Assign { left: _, right: _ }
            | Stmt::If {
                condition: _,
                then_part: _,
                else_part: _,
            }
            | Stmt::Print(_)
            | Stmt::Read(_)
            | Stmt::Stop => {
                return None;
            }
        }
    }
    None
}

/// The DO, where nothing but comments follows it.
fn alone<'a>(d: &'a Do, behind: &[Stmt]) -> Option<&'a Do>
    ensures { MatchOption result ((statements_count (stmt_trees behind.now) == 0) ≡ false) (λ other. (other.now ≡ d.now) × ((statements_count (stmt_trees behind.now) == 0) ≡ true)) }
{
    if are_comments(behind) { Some(d) } else { None }
}

/// Whether these statements are comments.
pub fn are_comments(statements: &[Stmt]) -> bool
    ensures { result ≡ (statements_count (stmt_trees statements.now) == 0) }
{
    for statement in statements {
        if !is_comment(statement) {
            return false;
        }
    }
    true
}

/// Whether this statement is a comment.
pub fn is_comment(statement: &Stmt) -> bool
    ensures { result ≡ (statement_count (stmt_tree statement.now) == 0) }
{
    match statement {
        Stmt::Comment(_) => true,
        Stmt::Assign { left: _, right: _ }
        | Stmt::If {
            condition: _,
            then_part: _,
            else_part: _,
        }
        | Stmt::Do(_)
        | Stmt::Print(_)
        | Stmt::Read(_)
        | Stmt::Stop => false,
    }
}
