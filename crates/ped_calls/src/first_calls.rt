//! Copies of statements that keep only their first CALLs, in text order.

ghost use Rattle.std.specs.Prelude.{◌≡◌, ◌-◌, ◌==◌, ◌&&◌, if◌then◌else◌, IfOk, OnOk, map};
ghost use Rattle.ped_tree.specs.Tree.{StmtTrees, more_stmts};
ghost use Rattle.ped_tree.specs.Views.{stmt_tree, stmt_trees};
ghost use Rattle.ped_links.specs.ped_units.specs.Expanding.{behind_stmts};
ghost use Rattle.ped_links.specs.ped_units.specs.Verdicts as Spec;

use crate::calls::is_call;
use ped_base::NoMemory;
use ped_links::with_condition;
use ped_tree::Stmt;
use std::alloc::Global;

/// Copies of statements with only the first of their CALLs in text order, as many as given, and without the others.
#[cycle(first_calls)]
pub fn first_calls(
    alloc: Global,
    left: &mut usize,
    statements: &[Stmt],
) -> Result<Vec<Stmt>, NoMemory>
    ensures statements { IfOk result (λ copies. stmt_trees copies.items ≡ Spec.first_calls left.old (stmt_trees statements.now)) }
    ensures left { OnOk result (left.new ≡ left.old - Spec.calls_count (stmt_trees statements.now)) }
{
    let mut copies = Vec::new(alloc);
    for statement in statements {
        add_first_calls(alloc, left, statement, &mut copies)?;
    }
    Ok(copies)
}

/// Adds a copy of a statement with the first of its CALLs, unless it is itself a CALL after these.
#[cycle(first_calls)]
fn add_first_calls(
    alloc: Global,
    left: &mut usize,
    statement: &Stmt,
    copies: &mut Vec<Stmt>,
) -> Result<(), NoMemory>
    ensures statements { OnOk result ((rest : StmtTrees) → behind_stmts (map stmt_tree copies.new.items) rest
        ≡ behind_stmts (map stmt_tree copies.old.items) (Spec.while_calls left.old (Spec.call_here (stmt_tree statement.now)) (Spec.with_first_calls left.old (stmt_tree statement.now)) rest)) }
    ensures left { OnOk result (left.new ≡ left.old - Spec.call_count (stmt_tree statement.now)) }
{
    match statement {
        Stmt::Assign {
            left: first,
            right: second,
        } => add_assignment(alloc, left, is_call(first, second), statement, copies),
        Stmt::If {
            condition,
            then_part,
            else_part,
        } => {
            let then_part = first_calls(alloc, left, then_part)?;
            let else_part = first_calls(alloc, left, else_part)?;
            copies.push(with_condition(alloc, condition, then_part, else_part)?)?;
            Ok(())
        }
        Stmt::Do(d) => {
            let body = first_calls(alloc, left, &d.body)?;
            copies.push(Stmt::of_loop(d.with_body(body, alloc)?))?;
            Ok(())
        }
        Stmt::Print(_) => add_copy(alloc, statement, copies),
        Stmt::Read(_) => add_copy(alloc, statement, copies),
        Stmt::Stop => add_copy(alloc, statement, copies),
        Stmt::Comment(_) => add_copy(alloc, statement, copies),
    }
}

/// Adds a copy of a statement.
fn add_copy(alloc: Global, statement: &Stmt, copies: &mut Vec<Stmt>) -> Result<(), NoMemory>
    ensures { OnOk result ((rest : StmtTrees) → behind_stmts (map stmt_tree copies.new.items) rest ≡ behind_stmts (map stmt_tree copies.old.items) (more_stmts (stmt_tree statement.now) rest)) }
{
    copies.push(statement.copy(alloc)?)?;
    Ok(())
}

/// Adds a copy of an assignment; of a CALL where some are left, and takes one of them.
fn add_assignment(
    alloc: Global,
    left: &mut usize,
    is_call: bool,
    statement: &Stmt,
    copies: &mut Vec<Stmt>,
) -> Result<(), NoMemory>
    ensures statements { OnOk result ((rest : StmtTrees) → behind_stmts (map stmt_tree copies.new.items) rest
        ≡ behind_stmts (map stmt_tree copies.old.items) (if is_call && left.old == 0 then rest else more_stmts (stmt_tree statement.now) rest)) }
    ensures left { OnOk result (left.new ≡ left.old - (if is_call then 1 else 0)) }
{
    if !is_call {
        copies.push(statement.copy(alloc)?)?;
        return Ok(());
    }
    if *left == 0 {
        return Ok(());
    }
    *left -= 1;
    copies.push(statement.copy(alloc)?)?;
    Ok(())
}
