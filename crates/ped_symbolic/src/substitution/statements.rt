//! An expression in place of a scalar in statements, on their left sides and in READ too. Comments stay, and so do
//! the variable of a DO, its PRIVATE names and its rejected names.

ghost use Rattle.std.specs.Prelude.{◌≡◌, IfOk, map};
ghost use Rattle.ped_tree.specs.Views.{expr_tree, item_tree, stmt_tree, stmt_trees, do_tree};
ghost use Rattle.ped_symbolic.specs.Substitution as Spec;

use super::conditions::substitute_in_condition;
use super::expressions::{substitute, substitute_in_all};
use ped_base::{Name, NoMemory, both};
use ped_tree::{Do, Expr, PrintItem, Stmt};
use std::alloc::Global;

fn substitute_in_item(
    alloc: Global,
    item: &PrintItem,
    name: &Name,
    by: &Expr,
) -> Result<PrintItem, NoMemory>
    ensures { IfOk result (λ new. item_tree new ≡ Spec.item_substituted name.now (expr_tree by.now) (item_tree item.now)) }
{
    match item {
        PrintItem::Value(value) => Ok(PrintItem::value(substitute(alloc, value, name, by)?)),
        PrintItem::Text(_) => item.copy(alloc),
    }
}

fn substitute_in_items(
    alloc: Global,
    items: &[PrintItem],
    name: &Name,
    by: &Expr,
) -> Result<Vec<PrintItem>, NoMemory>
    ensures { IfOk result (λ new. map item_tree new.items ≡ map (Spec.item_substituted name.now (expr_tree by.now)) (map item_tree items.now)) }
{
    let mut new = Vec::new(alloc);
    for item in items {
        new.push(substitute_in_item(alloc, item, name, by)?)?;
    }
    Ok(new)
}

/// The statement with `by` in place of the scalar `name`, also where the scalar is on the left side of an assignment or
/// in a READ: what the new statement assigns is then `by`, and it is the caller's to see that this is a variable.
#[cycle(substitute_in_statement)]
pub fn substitute_in_statement(
    alloc: Global,
    statement: &Stmt,
    name: &Name,
    by: &Expr,
) -> Result<Stmt, NoMemory>
    ensures { IfOk result (λ new. stmt_tree new ≡ Spec.statement_substituted name.now (expr_tree by.now) (stmt_tree statement.now)) }
{
    match statement {
        Stmt::Assign { left, right } => {
            let left = substitute(alloc, left, name, by)?;
            let (left, right) = both(left, substitute(alloc, right, name, by))?;
            Ok(Stmt::assignment(left, right))
        }
        Stmt::If {
            condition,
            then_part,
            else_part,
        } => {
            let then_part = substitute_in_statements(alloc, then_part, name, by)?;
            let else_part = substitute_in_statements(alloc, else_part, name, by)?;
            let condition = substitute_in_condition(alloc, condition, name, by)?;
            Ok(Stmt::block_if(condition, then_part, else_part))
        }
        Stmt::Do(body) => Ok(Stmt::of_loop(substitute_in_loop(alloc, body, name, by)?)),
        Stmt::Print(items) => Ok(Stmt::print(substitute_in_items(alloc, items, name, by)?)),
        Stmt::Read(items) => Ok(Stmt::read(substitute_in_all(alloc, items, name, by)?)),
        Stmt::Stop | Stmt::Comment(_) => statement.copy(alloc),
    }
}

/// The loop with `by` in place of the scalar `name` in its bounds, its increment and its body. Its variable, its
/// PRIVATE names and its rejected names stay as they are, also where one of them is `name`.
#[cycle(substitute_in_statement)]
pub fn substitute_in_loop(alloc: Global, body: &Do, name: &Name, by: &Expr) -> Result<Do, NoMemory>
    ensures { IfOk result (λ new. do_tree new ≡ Spec.statement_substituted name.now (expr_tree by.now) (do_tree body.now)) }
{
    let statements = substitute_in_statements(alloc, &body.body, name, by)?;
    let first = substitute(alloc, &body.first, name, by)?;
    let bounds = both(first, substitute(alloc, &body.last, name, by))?;
    let ((first, last), step) = both(bounds, substitute(alloc, &body.step, name, by))?;
    body.with_header_and_body(first, last, step, statements, alloc)
}

/// The statements, each with `by` in place of the scalar `name`.
#[cycle(substitute_in_statement)]
pub fn substitute_in_statements(
    alloc: Global,
    statements: &[Stmt],
    name: &Name,
    by: &Expr,
) -> Result<Vec<Stmt>, NoMemory>
    ensures { IfOk result (λ new. stmt_trees new.items ≡ Spec.statements_substituted name.now (expr_tree by.now) (stmt_trees statements.now)) }
{
    let mut new = Vec::new(alloc);
    for statement in statements {
        new.push(substitute_in_statement(alloc, statement, name, by)?)?;
    }
    Ok(new)
}
