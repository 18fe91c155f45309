//! Executable statements that can be written at their places, with the statements in their parts.

ghost use Rattle.std.specs.Prelude.{◌≡◌, ◌+◌, ◌<◌, ◌≤◌, ◌&&◌, true, nat_lt, not, map, length};
ghost use Rattle.std.specs.List.{flat_map};
ghost use Rattle.ped_base.specs.Lists.{has_some};
ghost use Rattle.ped_tree.specs.Numbering.{statement_count, statements_count};
ghost use Rattle.ped_tree.specs.Views.{expr_tree, cond_tree, stmt_tree, stmt_trees};
ghost use Rattle.ped_tree.specs.Grammar.Contexts.{is_stop};
ghost use Rattle.ped_tree.specs.Grammar.ProgramRefusals as Refusals;
ghost use Rattle.ped_tree.specs.Grammar.Fits as Spec;
ghost use Rattle.ped_fits.specs.Surroundings.{place, IsAround, Follows, is_simple, simple_parts_fit};
ghost use Rattle.ped_tree.specs.Views.{head_of};

use crate::comments::comment_fits;
use crate::expressions::{cond_fits, expr_fits, items_fit, target_fits, targets_fit};
use crate::loops::loop_fits;
use crate::surroundings::{Surroundings, is_within, with_private, with_variable};
use ped_base::{Name, is_among};
use ped_limits::MOST_BLOCKS_NESTED;
use ped_tree::{Cond, Do, Expr, Stmt};

/// How many numbered statements come before what follows these statements, where `before` of them come
/// before the first; none where one of them doesn't fit.
#[cycle(statements)]
pub fn statements_fit(around: &Surroundings, before: u64, all: &[Stmt]) -> Option<u64>
    requires around { IsAround around.now }
    requires counted { before ≤ 4000 }
    ensures { Follows (Spec.stmts_fit (place around.now before) (stmt_trees all.now))
        before (statements_count (stmt_trees all.now)) result }
{
    let mut next = before;
    for statement in all {
        match statement_fits(around, next, statement) {
            Some(behind) => next = behind,
            None => return None,
        }
    }
    Some(next)
}

/// How many numbered statements come before what follows a statement; none where it doesn't fit.
#[cycle(statements)]
fn statement_fits(around: &Surroundings, before: u64, statement: &Stmt) -> Option<u64>
    requires around { IsAround around.now }
    requires counted { before ≤ 4000 }
    ensures { Follows (Spec.stmt_fits (place around.now before) (stmt_tree statement.now))
        before (statement_count (stmt_tree statement.now)) result }
{
    match statement {
        Stmt::Assign { left: _, right: _ } => simple_fits(around, before, statement),
        Stmt::Print(_) => simple_fits(around, before, statement),
        Stmt::Read(_) => simple_fits(around, before, statement),
        Stmt::Stop => simple_fits(around, before, statement),
        Stmt::If {
            condition,
            then_part,
            else_part,
        } => {
            if !branch_fits(around, before, statement, condition) {
                return None;
            }
            let inner = Surroundings {
                decls: around.decls,
                variables: around.variables,
                private: around.private,
                depth: around.depth + 1,
            };
            let middle = statements_fit(&inner, before + 1, then_part)?;
            statements_fit(&inner, middle, else_part)
        }
        Stmt::Do(d) => {
            if !loop_fits(around, before, statement, d) {
                return None;
            }
            body_fits(around, before, d)
        }
        Stmt::Comment(text) => {
            if comment_fits(text.as_slice()) {
                return Some(before);
            }
            None
        }
    }
}

/// How many numbered statements come before what follows the body of a DO that fits by itself; none where the
/// body doesn't fit.
#[cycle(statements)]
fn body_fits(around: &Surroundings, before: u64, d: &Do) -> Option<u64>
    requires around { IsAround around.now }
    requires few { before < 4000 }
    requires loops { length around.now.variables.now < 6 }
    requires depth { around.now.depth < 100 }
    ensures { Follows (Spec.stmts_fit (Spec.in_loop (place around.now before) (head_of d.now)) (stmt_trees d.now.body.items))
        before (statements_count (stmt_trees d.now.body.items) + 1) result }
{
    let variables = with_variable(d.variable, around.variables);
    let private = with_private(d.private.as_slice(), around.private);
    let inner = Surroundings {
        decls: around.decls,
        variables: &variables[..around.variables.len() + 1],
        private: &private[..around.private.len() + 1],
        depth: around.depth + 1,
    };
    statements_fit(&inner, before + 1, &d.body)
}

/// Whether an IF can be written where it is, whatever its parts are.
fn branch_fits(around: &Surroundings, before: u64, statement: &Stmt, condition: &Cond) -> bool
    ensures { result ≡ (Spec.is_within (place around.now before) (stmt_tree statement.now)
        && nat_lt around.now.depth 100 && Spec.cond_fits (cond_tree condition.now)) }
{
    is_within(around, before, statement)
        && around.depth < MOST_BLOCKS_NESTED
        && cond_fits(condition)
}

/// How many numbered statements come before what follows an assignment, PRINT, READ or STOP; none where it doesn't fit.
fn simple_fits(around: &Surroundings, before: u64, statement: &Stmt) -> Option<u64>
    requires simple { is_simple (stmt_tree statement.now) ≡ true }
    requires counted { before ≤ 4000 }
    ensures { Follows (Spec.stmt_fits (place around.now before) (stmt_tree statement.now))
        before (statement_count (stmt_tree statement.now)) result }
{
    if is_within(around, before, statement)
        && keeps_loops(around, statement)
        && parts_fit(statement)
    {
        return Some(before + 1);
    }
    None
}

/// Whether an assignment, PRINT, READ or STOP doesn't change the variables of the loops around it, and STOP
/// is in no loop.
fn keeps_loops(around: &Surroundings, statement: &Stmt) -> bool
    ensures { result ≡ (not (Refusals.meets (Refusals.assigned_by (stmt_tree statement.now)) around.now.variables.now)
        && not (is_stop (stmt_tree statement.now) && has_some around.now.variables.now)) }
{
    match statement {
        Stmt::Assign { left, right: _ } => !is_variable(around.variables, left),
        Stmt::Read(items) => !have_variable(around.variables, items),
        Stmt::Stop => around.variables.is_empty(),
        Stmt::If {
            condition: _,
            then_part: _,
            else_part: _,
        }
        | Stmt::Do(_)
        | Stmt::Print(_)
        | Stmt::Comment(_) => true,
    }
}

/// Whether the left side is one of the variables.
fn is_variable(variables: &[Name], left: &Expr) -> bool
    ensures { result ≡ Refusals.meets (Refusals.scalar_of (expr_tree left.now)) variables.now }
{
    match left {
        Expr::Var(name) => is_among(name, variables),
        Expr::Int(_)
        | Expr::Element(_, _)
        | Expr::Neg(_)
        | Expr::Add(_, _)
        | Expr::Sub(_, _)
        | Expr::Mul(_, _)
        | Expr::Div(_, _)
        | Expr::Pow(_, _)
        | Expr::Call(_, _) => false,
    }
}

/// Whether an item of a READ is one of the variables.
fn have_variable(variables: &[Name], items: &[Expr]) -> bool
    ensures { result ≡ Refusals.meets (flat_map Refusals.scalar_of (map expr_tree items.now)) variables.now }
{
    for item in items {
        if is_variable(variables, item) {
            return true;
        }
    }
    false
}

/// Whether the expressions of an assignment, the items of a PRINT or a READ can be written.
fn parts_fit(statement: &Stmt) -> bool
    ensures { result ≡ simple_parts_fit (stmt_tree statement.now) }
{
    match statement {
        Stmt::Assign { left, right } => target_fits(left) && expr_fits(right),
        Stmt::Print(items) => items_fit(items),
        Stmt::Read(items) => targets_fit(items),
        Stmt::Stop => true,
        Stmt::If {
            condition: _,
            then_part: _,
            else_part: _,
        }
        | Stmt::Do(_)
        | Stmt::Comment(_) => false,
    }
}
