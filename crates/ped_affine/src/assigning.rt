//! What a DO and its body assign, and the variables of the DO loops of a program.

ghost use Rattle.std.specs.Prelude.{◌≡◌, [], map, IfOk, OnOk};
ghost use Rattle.std.specs.List.{flat_map};
ghost use Rattle.ped_tree.specs.NamesIn as Names;
ghost use Rattle.ped_tree.specs.Views.{expr_tree, stmt_tree, stmt_trees, do_tree};
ghost use Rattle.ped_tree.specs.Names.Collecting.{with_names};
ghost use Rattle.ped_affine.specs.Assigned as Spec;

use ped_base::{Name, NoMemory};
use ped_tree::names::NameSet;
use ped_tree::{Do, Expr, Stmt};
use std::alloc::Global;

/// The variables of the DO loops among statements and in them (ANSI X3.9-1978, section 11.10). Each name comes once.
pub fn loop_variables(alloc: Global, body: &[Stmt]) -> Result<NameSet, NoMemory>
    ensures { IfOk result (λ names. names ≡ with_names [] (Names.all_loop_variables (stmt_trees body.now))) }
{
    let mut names = NameSet::new(alloc);
    add_variables(&mut names, body)?;
    Ok(names)
}

/// What a DO assigns: its variable, its private names, and what its body assigns, by an assignment, a READ or a DO in
/// it (ANSI X3.9-1978, sections 10.1, 11.10, 12.8). Each name comes once.
pub fn assigned(alloc: Global, d: &Do) -> Result<NameSet, NoMemory>
    ensures { IfOk result (λ names. names ≡ with_names [] (Spec.assigned_in (do_tree d.now))) }
{
    let mut names = NameSet::new(alloc);
    add_by_loop(&mut names, d)?;
    Ok(names)
}

/// Adds the variables of the DO loops among statements and in them.
#[cycle(variables)]
fn add_variables(names: &mut NameSet, statements: &[Stmt]) -> Result<(), NoMemory>
    ensures { OnOk result (names.new ≡ with_names names.old (Names.all_loop_variables (stmt_trees statements.now))) }
{
    for statement in statements {
        add_variables_of(names, statement)?;
    }
    Ok(())
}

/// Adds the variables of the DO loops of a statement and of its parts.
#[cycle(variables)]
fn add_variables_of(names: &mut NameSet, statement: &Stmt) -> Result<(), NoMemory>
    ensures { OnOk result (names.new ≡ with_names names.old (Names.loop_variables (stmt_tree statement.now))) }
{
    match statement {
        Stmt::If {
            condition: _,
            then_part,
            else_part,
        } => {
            add_variables(names, then_part)?;
            add_variables(names, else_part)
        }
        Stmt::Do(d) => add_variables_of_loop(names, d),
        Stmt::Assign { left: _, right: _ }
        | Stmt::Print(_)
        | Stmt::Read(_)
        | Stmt::Stop
        | Stmt::Comment(_) => Ok(()),
    }
}

/// Adds the variable of a DO and those of the DO loops in it.
#[cycle(variables)]
fn add_variables_of_loop(names: &mut NameSet, d: &Do) -> Result<(), NoMemory>
    ensures { OnOk result (names.new ≡ with_names names.old (Names.loop_variables (do_tree d.now))) }
{
    names.insert(&d.variable)?;
    add_variables(names, &d.body)
}

/// Adds what statements assign.
#[cycle(assigning)]
fn add_assigned(names: &mut NameSet, statements: &[Stmt]) -> Result<(), NoMemory>
    ensures { OnOk result (names.new ≡ with_names names.old (Spec.assigned_in_all (stmt_trees statements.now))) }
{
    for statement in statements {
        add_by_statement(names, statement)?;
    }
    Ok(())
}

/// Adds what a statement and its parts assign.
#[cycle(assigning)]
fn add_by_statement(names: &mut NameSet, statement: &Stmt) -> Result<(), NoMemory>
    ensures { OnOk result (names.new ≡ with_names names.old (Spec.assigned_in (stmt_tree statement.now))) }
{
    match statement {
        Stmt::Assign { left, right: _ } => add_left(names, left),
        Stmt::If {
            condition: _,
            then_part,
            else_part,
        } => {
            add_assigned(names, then_part)?;
            add_assigned(names, else_part)
        }
        Stmt::Do(d) => add_by_loop(names, d),
        Stmt::Read(items) => add_lefts(names, items),
        Stmt::Print(_) | Stmt::Stop | Stmt::Comment(_) => Ok(()),
    }
}

/// Adds what a DO assigns.
#[cycle(assigning)]
fn add_by_loop(names: &mut NameSet, d: &Do) -> Result<(), NoMemory>
    ensures { OnOk result (names.new ≡ with_names names.old (Spec.assigned_in (do_tree d.now))) }
{
    names.insert(&d.variable)?;
    add_names(names, d.private.as_slice())?;
    add_assigned(names, &d.body)
}

/// Adds names.
fn add_names(names: &mut NameSet, others: &[Name]) -> Result<(), NoMemory>
    ensures { OnOk result (names.new ≡ with_names names.old others.now) }
{
    for name in others {
        names.insert(name)?;
    }
    Ok(())
}

/// Adds what the items of a READ assign.
fn add_lefts(names: &mut NameSet, items: &[Expr]) -> Result<(), NoMemory>
    ensures { OnOk result (names.new ≡ with_names names.old (flat_map Spec.assigned_left (map expr_tree items.now))) }
{
    for item in items {
        add_left(names, item)?;
    }
    Ok(())
}

/// Adds the variable or the array that a left side assigns.
fn add_left(names: &mut NameSet, left: &Expr) -> Result<(), NoMemory>
    ensures { OnOk result (names.new ≡ with_names names.old (Spec.assigned_left (expr_tree left.now))) }
{
    match left {
        Expr::Var(name) | Expr::Element(name, _) => names.insert(name),
        Expr::Int(_)
        | Expr::Neg(_)
        | Expr::Add(_, _)
        | Expr::Sub(_, _)
        | Expr::Mul(_, _)
        | Expr::Div(_, _)
        | Expr::Pow(_, _)
        | Expr::Call(_, _) => Ok(()),
    }
}
