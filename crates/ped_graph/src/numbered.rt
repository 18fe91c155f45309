//! The numbered statements of a program, one after the other, so that one is found by its number at once.

ghost use Rattle.std.specs.Prelude.{◌≡◌, ◌++◌, ◌∷◌, ◌<◌, [], Some, None, length, slice_get, IfOk, OnOk, MatchOption};
ghost use Rattle.ped_tree.specs.Views.{stmt_tree, stmt_trees};
ghost use Rattle.ped_tree.specs.Numbering.{numbered, all_numbered};
ghost use Rattle.ped_graph.specs.KnownProgram.{trees_of, found_with};

use ped_base::NoMemory;
use ped_tree::Stmt;
use std::alloc::Global;

/// The numbered statements, in text order.
pub fn numbered_statements<'a>(alloc: Global, body: &'a [Stmt]) -> Result<Vec<&'a Stmt>, NoMemory>
    ensures { IfOk result (λ statements. trees_of statements.items ≡ all_numbered (stmt_trees body.now)) }
{
    let mut statements = Vec::new(alloc);
    push_all(&mut statements, body)?;
    Ok(statements)
}

/// Adds statements and those in them.
#[cycle(statements)]
fn push_all<'a>(statements: &mut Vec<&'a Stmt>, body: &'a [Stmt]) -> Result<(), NoMemory>
    ensures { OnOk result (trees_of statements.new.items ≡ trees_of statements.old.items ++ all_numbered (stmt_trees body.now)) }
{
    for statement in body {
        push_statement(statements, statement)?;
    }
    Ok(())
}

#[cycle(statements)]
fn push_statement<'a>(statements: &mut Vec<&'a Stmt>, statement: &'a Stmt) -> Result<(), NoMemory>
    ensures { OnOk result (trees_of statements.new.items ≡ trees_of statements.old.items ++ numbered (stmt_tree statement.now)) }
{
    match statement {
        Stmt::Comment(_) => Ok(()),
        Stmt::If {
            then_part,
            else_part,
            ..
        } => {
            push_one(statements, statement)?;
            push_all(statements, then_part)?;
            push_all(statements, else_part)
        }
        Stmt::Do(d) => {
            push_one(statements, statement)?;
            push_all(statements, &d.body)
        }
        Stmt::Assign { .. } => push_one(statements, statement),
        Stmt::Print(_) => push_one(statements, statement),
        Stmt::Read(_) => push_one(statements, statement),
        Stmt::Stop => push_one(statements, statement),
    }
}

fn push_one<'a>(statements: &mut Vec<&'a Stmt>, statement: &'a Stmt) -> Result<(), NoMemory>
    ensures { OnOk result (trees_of statements.new.items ≡ trees_of statements.old.items ++ stmt_tree statement.now ∷ []) }
{
    statements.push(statement)?;
    Ok(())
}

/// The statement with this number among all numbered statements; none where there is no such number.
pub fn statement_at<'a>(statements: &[&'a Stmt], number: u32) -> Option<&'a Stmt>
    ensures { MatchOption result (found_with number (trees_of statements.now) ≡ None) (λ s. found_with number (trees_of statements.now) ≡ Some (stmt_tree s.now)) }
{
    if number == 0 {
        return None;
    }
    let place = number as usize - 1;
    if place >= statements.len() {
        return None;
    }
    Some(statement_there(statements, place))
}

fn statement_there<'a>(statements: &[&'a Stmt], place: usize) -> &'a Stmt
    requires { place < length statements.now }
    ensures { slice_get statements.now place ≡ Some result }
{
    statements[place]
}
