//! How many numbered statements each statement contains.

ghost use Rattle.std.specs.Prelude.{◌≡◌, ◌<◌, ◌+◌, ◌^◌, [], ◌∷◌, ◌++◌, map, IfOk, OnOk};
ghost use Rattle.ped_tree.specs.Views.{stmt_tree, stmt_trees};
ghost use Rattle.ped_tree.specs.Numbering.{numbered, all_numbered, statement_count, statements_count};

use ped_base::NoMemory;
use ped_tree::{Stmt, count_statement};
use std::alloc::Global;

/// For each numbered statement, in text order, how many statements it has, itself and those in it.
pub fn extents(alloc: Global, body: &[Stmt]) -> Result<Vec<u32>, NoMemory>
    requires { statements_count (stmt_trees body.now) < 2 ^ 32 }
    ensures { IfOk result (λ extents. extents.items ≡ map statement_count (all_numbered (stmt_trees body.now))) }
{
    let mut extents = Vec::new(alloc);
    push_all(&mut extents, body)?;
    Ok(extents)
}

/// Adds the numbers for statements that are one after the other.
#[cycle(extents)]
fn push_all(extents: &mut Vec<u32>, body: &[Stmt]) -> Result<(), NoMemory>
    requires { statements_count (stmt_trees body.now) < 2 ^ 32 }
    ensures { OnOk result (extents.new.items ≡ extents.old.items ++ map statement_count (all_numbered (stmt_trees body.now))) }
{
    for statement in body {
        push_statement(extents, statement)?;
    }
    Ok(())
}

/// Adds the numbers for a statement and those in it.
#[cycle(extents)]
fn push_statement(extents: &mut Vec<u32>, statement: &Stmt) -> Result<(), NoMemory>
    requires { statement_count (stmt_tree statement.now) < 2 ^ 32 }
    ensures { OnOk result (extents.new.items ≡ extents.old.items ++ map statement_count (numbered (stmt_tree statement.now))) }
{
    match statement {
        Stmt::Comment(_) => Ok(()),
        Stmt::If {
            condition: _,
            then_part,
            else_part,
        } => {
            extents.push(count_statement(statement))?;
            push_all(extents, then_part)?;
            push_all(extents, else_part)
        }
        Stmt::Do(d) => {
            extents.push(count_statement(statement))?;
            push_all(extents, &d.body)
        }
        Stmt::Assign { left: _, right: _ } => push_one(extents),
        Stmt::Print(_) => push_one(extents),
        Stmt::Read(_) => push_one(extents),
        Stmt::Stop => push_one(extents),
    }
}

fn push_one(extents: &mut Vec<u32>) -> Result<(), NoMemory>
    ensures { OnOk result (extents.new.items ≡ extents.old.items ++ 1 ∷ []) }
{
    extents.push(1)?;
    Ok(())
}
