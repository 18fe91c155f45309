//! The variables that statements of a unit assign, and their DO variables.

ghost use Rattle.std.specs.Prelude.{◌≡◌, map, IfOk, OnOk};
ghost use Rattle.std.specs.List.{flat_map};
ghost use Rattle.ped_tree.specs.NamesIn.{loop_variables, all_loop_variables};
ghost use Rattle.ped_tree.specs.Names.Collecting.{with_names, HaveSame};
ghost use Rattle.ped_tree.specs.Views.{expr_tree, stmt_tree, stmt_trees};
ghost use Rattle.ped_units.specs.Linking.{assigned_left, assigned_in, all_assigned_in};

use ped_base::NoMemory;
use ped_tree::names::NameSet;
use ped_tree::{Expr, Stmt};
use std::alloc::Global;

/// The variables that statements assign, read into or have as DO variables.
pub fn assigned(alloc: Global, statements: &[Stmt]) -> Result<NameSet, NoMemory>
    ensures { IfOk result (λ names. HaveSame names (all_assigned_in (stmt_trees statements.now))) }
{
    let mut names = NameSet::new(alloc);
    add_assigned(&mut names, statements)?;
    Ok(names)
}

#[cycle(add_assigned)]
fn add_assigned(names: &mut NameSet, statements: &[Stmt]) -> Result<(), NoMemory>
    ensures { OnOk result (names.new ≡ with_names names.old (all_assigned_in (stmt_trees statements.now))) }
{
    for statement in statements {
        add_assigned_in(names, statement)?;
    }
    Ok(())
}

#[cycle(add_assigned)]
fn add_assigned_in(names: &mut NameSet, statement: &Stmt) -> Result<(), NoMemory>
    ensures { OnOk result (names.new ≡ with_names names.old (assigned_in (stmt_tree statement.now))) }
{
    match statement {
        Stmt::Assign { left, right: _ } => add_left(names, left),
        Stmt::If {
            condition: _,
            then_part,
            else_part,
        } => {
            add_assigned(names, then_part)?;
            add_assigned(names, else_part)
        }
        Stmt::Do(d) => {
            names.insert(&d.variable)?;
            add_assigned(names, &d.body)
        }
        Stmt::Read(items) => add_lefts(names, items),
        Stmt::Print(_) | Stmt::Stop | Stmt::Comment(_) => Ok(()),
    }
}

/// Adds the variables that items of a READ are.
fn add_lefts(names: &mut NameSet, items: &[Expr]) -> Result<(), NoMemory>
    ensures { OnOk result (names.new ≡ with_names names.old (flat_map assigned_left (map expr_tree items.now))) }
{
    for item in items {
        add_left(names, item)?;
    }
    Ok(())
}

/// Adds the variable that a left side is.
fn add_left(names: &mut NameSet, left: &Expr) -> Result<(), NoMemory>
    ensures { OnOk result (names.new ≡ with_names names.old (assigned_left (expr_tree left.now))) }
{
    match left {
        Expr::Var(name) => names.insert(name),
        Expr::Element(name, _) => names.insert(name),
        _ => Ok(()),
    }
}

/// The variables that statements have as DO variables.
pub fn indexes(alloc: Global, statements: &[Stmt]) -> Result<NameSet, NoMemory>
    ensures { IfOk result (λ names. HaveSame names (all_loop_variables (stmt_trees statements.now))) }
{
    let mut names = NameSet::new(alloc);
    add_indexes(&mut names, statements)?;
    Ok(names)
}

#[cycle(add_indexes)]
fn add_indexes(names: &mut NameSet, statements: &[Stmt]) -> Result<(), NoMemory>
    ensures { OnOk result (names.new ≡ with_names names.old (all_loop_variables (stmt_trees statements.now))) }
{
    for statement in statements {
        add_indexes_in(names, statement)?;
    }
    Ok(())
}

#[cycle(add_indexes)]
fn add_indexes_in(names: &mut NameSet, statement: &Stmt) -> Result<(), NoMemory>
    ensures { OnOk result (names.new ≡ with_names names.old (loop_variables (stmt_tree statement.now))) }
{
    match statement {
        Stmt::If {
            condition: _,
            then_part,
            else_part,
        } => {
            add_indexes(names, then_part)?;
            add_indexes(names, else_part)
        }
        Stmt::Do(d) => {
            names.insert(&d.variable)?;
            add_indexes(names, &d.body)
        }
        Stmt::Assign { .. } | Stmt::Print(_) | Stmt::Read(_) | Stmt::Stop | Stmt::Comment(_) => {
            Ok(())
        }
    }
}
