//! Marked blocks: a block IF that a CALL was expanded to, with the CALL in a comment.

ghost use Rattle.std.specs.Prelude.{◌≡◌, Some, None, MatchOption};
ghost use Rattle.ped_tree.specs.Tree as Tree;
ghost use Rattle.ped_tree.specs.Tree.{StmtTrees};
ghost use Rattle.ped_tree.specs.Views.{expr_tree, cond_tree, stmt_tree, stmt_trees, program_tree};
ghost use Rattle.ped_inline.specs.Blocks as Spec;
ghost use Rattle.ped_inline.specs.Blocks.{IsBlock};
ghost use Rattle.ped_inline.specs.Folding as Folding;

use ped_tree::{Cond, Expr, Program, Relation, Stmt};

/// The body, without the comment, of the marked block with this number, where the statement is one.
pub(crate) fn block_at<'a>(program: &'a Program, number: u32) -> Option<&'a [Stmt]>
    ensures { MatchOption result ((body : StmtTrees) → IsBlock (program_tree program.now) number body → ⊥) (λ body. IsBlock (program_tree program.now) number (stmt_trees body.now)) }
{
    match program.at(number) {
        Some(statement) => {
            return block_body(statement);
        }
        None => {
            return None;
        }
    }
}

/// Whether the statement is a marked block.
pub(crate) fn is_block(statement: &Stmt) -> bool
    ensures { result ≡ Folding.is_block (stmt_tree statement.now) }
{
    block_body(statement).is_some()
}

/// The body of a marked block without the comment: of an IF with the condition 0.EQ.0, without ELSE, whose first statement is
/// a comment that names a CALL.
fn block_body<'a>(statement: &'a Stmt) -> Option<&'a [Stmt]>
    ensures { MatchOption result (Spec.block_body (stmt_tree statement.now) ≡ None) (λ body. Spec.block_body (stmt_tree statement.now) ≡ Some (stmt_trees body.now)) }
{
    match statement {
        Stmt::If {
            condition,
            then_part,
            else_part,
        } => {
            return body_between(condition, then_part, else_part);
        }
        Stmt::Do(_) => {
            return None;
        }
        Stmt::Assign { left: _, right: _ }
        | Stmt::Print(_)
        | Stmt::Read(_)
        | Stmt::Stop
        | Stmt::Comment(_) => {
            return None;
        }
    }
}

/// The same of a block IF with this condition and these parts.
fn body_between<'a>(
    condition: &Cond,
    then_part: &'a [Stmt],
    else_part: &[Stmt],
) -> Option<&'a [Stmt]>
    ensures { MatchOption result (Spec.block_body (Tree.If (cond_tree condition.now) (stmt_trees then_part.now) (stmt_trees else_part.now)) ≡ None)
        (λ body. Spec.block_body (Tree.If (cond_tree condition.now) (stmt_trees then_part.now) (stmt_trees else_part.now)) ≡ Some (stmt_trees body.now)) }
{
    if !else_part.is_empty() {
        return None;
    }
    if !is_always(condition) {
        return None;
    }
    behind_call(then_part)
}

/// The statements after a comment that names a CALL, where such a comment comes first.
fn behind_call(statements: &[Stmt]) -> Option<&[Stmt]>
    ensures { MatchOption result (Spec.behind_call (stmt_trees statements.now) ≡ None) (λ rest. Spec.behind_call (stmt_trees statements.now) ≡ Some (stmt_trees rest.now)) }
{
    match statements.split_first() {
        Some((first, rest)) => {
            if is_mark(first) {
                return Some(rest);
            }
            return None;
        }
        None => {
            return None;
        }
    }
}

/// Whether the statement is a comment that names a CALL.
fn is_mark(statement: &Stmt) -> bool
    ensures { result ≡ Spec.is_mark (stmt_tree statement.now) }
{
    match statement {
        Stmt::Comment(text) => names_call(text.as_slice()),
        Stmt::Assign { left: _, right: _ }
        | Stmt::If {
            condition: _,
            then_part: _,
            else_part: _,
        }
        | Stmt::Do(_)
        | Stmt::Print(_)
        | Stmt::Read(_)
        | Stmt::Stop => false,
    }
}

/// Whether the text of a comment names a CALL.
fn names_call(text: &[u8]) -> bool
    ensures { result ≡ Spec.names_call text.now }
{
    text.starts_with(b"$CALL ")
}

/// Whether the condition is 0.EQ.0.
fn is_always(condition: &Cond) -> bool
    ensures { result ≡ Spec.is_always (cond_tree condition.now) }
{
    match condition {
        Cond::Rel(relation, left, right) => {
            is_equality(*relation) && (is_zero(left) && is_zero(right))
        }
        Cond::Not(_) | Cond::And(_, _) | Cond::Or(_, _) => false,
    }
}

/// Whether the relation is .EQ.
fn is_equality(relation: Relation) -> bool
    ensures { result ≡ Spec.is_equality relation }
{
    match relation {
        Relation::Eq => true,
        Relation::Lt | Relation::Le | Relation::Ne | Relation::Gt | Relation::Ge => false,
    }
}

/// Whether the expression is the literal 0.
fn is_zero(e: &Expr) -> bool
    ensures { result ≡ Spec.is_zero (expr_tree e.now) }
{
    match e {
        Expr::Int(n) => *n == 0,
        Expr::Var(_)
        | Expr::Element(_, _)
        | Expr::Neg(_)
        | Expr::Add(_, _)
        | Expr::Sub(_, _)
        | Expr::Mul(_, _)
        | Expr::Div(_, _)
        | Expr::Pow(_, _)
        | Expr::Call(_, _) => false,
    }
}
