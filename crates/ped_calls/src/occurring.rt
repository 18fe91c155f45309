//! The names in the statements of a unit, in the order of their first occurrence.

ghost use Rattle.std.specs.Prelude.{◌≡◌, [], map, IfOk, OnOk};
ghost use Rattle.std.specs.List.{flat_map};
ghost use Rattle.ped_tree.specs.NamesIn.{expr_names, exprs_names, cond_names, item_names, stmt_names, stmts_names, head_names, first_occurrences};
ghost use Rattle.ped_tree.specs.Names.Collecting.{with_names};
ghost use Rattle.ped_tree.specs.Tree.{Print, Value};
ghost use Rattle.ped_tree.specs.Views.{expr_tree, pack_exprs, cond_tree, item_tree, stmt_tree, stmt_trees, head};
ghost use Rattle.ped_tree.specs.Accesses.{listed};
ghost use Rattle.ped_links.specs.ped_units.specs.Units.{with_calls, all_with_calls};
ghost use Rattle.ped_links.specs.ped_units.specs.Expanding.{naming_arguments};

use ped_base::{Name, NoMemory};
use ped_tree::names::NameSet;
use ped_tree::{Cond, Do, Expr, PrintItem, Stmt};
use std::alloc::Global;

/// The names in statements, those in arguments of CALLs among them, but no subroutine's name.
pub fn body_names(alloc: Global, statements: &[Stmt]) -> Result<NameSet, NoMemory>
    ensures { IfOk result (λ names. names ≡ first_occurrences [] (stmts_names (all_with_calls naming_arguments (stmt_trees statements.now)))) }
{
    let mut names = NameSet::new(alloc);
    add_statements(&mut names, statements)?;
    Ok(names)
}

#[cycle(add_statements)]
fn add_statements(names: &mut NameSet, statements: &[Stmt]) -> Result<(), NoMemory>
    ensures { OnOk result (names.new ≡ with_names names.old (stmts_names (all_with_calls naming_arguments (stmt_trees statements.now)))) }
{
    for statement in statements {
        add_statement(names, statement)?;
    }
    Ok(())
}

#[cycle(add_statements)]
fn add_statement(names: &mut NameSet, statement: &Stmt) -> Result<(), NoMemory>
    ensures { OnOk result (names.new ≡ with_names names.old (stmt_names (with_calls naming_arguments (stmt_tree statement.now)))) }
{
    match statement {
        Stmt::Assign {
            left: Expr::Int(_),
            right: Expr::Element(_, arguments),
        } => add_arguments(names, arguments),
        Stmt::Assign {
            left: Expr::Int(_),
            right: Expr::Var(_),
        } => Ok(()),
        Stmt::Assign { left, right } => {
            add_expr(names, left)?;
            add_expr(names, right)
        }
        Stmt::If {
            condition,
            then_part,
            else_part,
        } => {
            add_cond(names, condition)?;
            add_statements(names, then_part)?;
            add_statements(names, else_part)
        }
        Stmt::Do(d) => {
            add_head(names, d)?;
            add_statements(names, &d.body)
        }
        Stmt::Print(items) => add_items(names, items),
        Stmt::Read(items) => add_read_items(names, items),
        Stmt::Stop | Stmt::Comment(_) => Ok(()),
    }
}

/// Adds the names in the head of a loop: rejected names, the variable, the bounds and the increment, private names.
fn add_head(names: &mut NameSet, d: &Do) -> Result<(), NoMemory>
    ensures { OnOk result (names.new ≡ with_names names.old (head_names (head d.now.variable d.now.first d.now.last d.now.step d.now.parallel d.now.private d.now.rejected))) }
{
    add_names(names, d.rejected.as_slice())?;
    names.insert(&d.variable)?;
    add_expr(names, &d.first)?;
    add_expr(names, &d.last)?;
    add_expr(names, &d.step)?;
    add_names(names, d.private.as_slice())
}

fn add_names(names: &mut NameSet, others: &[Name]) -> Result<(), NoMemory>
    ensures { OnOk result (names.new ≡ with_names names.old (others.now)) }
{
    for name in others {
        names.insert(name)?;
    }
    Ok(())
}

fn add_items(names: &mut NameSet, items: &[PrintItem]) -> Result<(), NoMemory>
    ensures { OnOk result (names.new ≡ with_names names.old (flat_map item_names (map item_tree items.now))) }
{
    for item in items {
        add_item(names, item)?;
    }
    Ok(())
}

fn add_item(names: &mut NameSet, item: &PrintItem) -> Result<(), NoMemory>
    ensures { OnOk result (names.new ≡ with_names names.old (item_names (item_tree item.now))) }
{
    match item {
        PrintItem::Value(e) => add_expr(names, e),
        PrintItem::Text(_) => Ok(()),
    }
}

fn add_read_items(names: &mut NameSet, items: &[Expr]) -> Result<(), NoMemory>
    ensures { OnOk result (names.new ≡ with_names names.old (flat_map expr_names (map expr_tree items.now))) }
{
    for item in items {
        add_expr(names, item)?;
    }
    Ok(())
}

/// Adds the names in the arguments of a CALL.
fn add_arguments(names: &mut NameSet, arguments: &[Expr]) -> Result<(), NoMemory>
    ensures { OnOk result (names.new ≡ with_names names.old (stmt_names (Print (map Value (listed (pack_exprs (map expr_tree arguments.now))))))) }
{
    add_exprs(names, arguments)
}

#[cycle(add_cond)]
fn add_cond(names: &mut NameSet, c: &Cond) -> Result<(), NoMemory>
    ensures { OnOk result (names.new ≡ with_names names.old (cond_names (cond_tree c.now))) }
{
    match c {
        Cond::Rel(_, a, b) => {
            add_expr(names, a)?;
            add_expr(names, b)
        }
        Cond::Not(a) => add_cond(names, a),
        Cond::And(a, b) | Cond::Or(a, b) => {
            add_cond(names, a)?;
            add_cond(names, b)
        }
    }
}

#[cycle(add_exprs)]
fn add_exprs(names: &mut NameSet, exprs: &[Expr]) -> Result<(), NoMemory>
    ensures { OnOk result (names.new ≡ with_names names.old (exprs_names (pack_exprs (map expr_tree exprs.now)))) }
{
    for e in exprs {
        add_expr(names, e)?;
    }
    Ok(())
}

#[cycle(add_exprs)]
fn add_expr(names: &mut NameSet, e: &Expr) -> Result<(), NoMemory>
    ensures { OnOk result (names.new ≡ with_names names.old (expr_names (expr_tree e.now))) }
{
    match e {
        Expr::Int(_) => Ok(()),
        Expr::Var(name) => names.insert(name),
        Expr::Element(name, subscripts) => {
            names.insert(name)?;
            add_exprs(names, subscripts)
        }
        Expr::Neg(a) => add_expr(names, a),
        Expr::Add(a, b) | Expr::Sub(a, b) | Expr::Mul(a, b) | Expr::Div(a, b) | Expr::Pow(a, b) => {
            add_expr(names, a)?;
            add_expr(names, b)
        }
        Expr::Call(_, arguments) => add_exprs(names, arguments),
    }
}
