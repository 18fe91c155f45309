//! The CALLs that marked blocks were made from.

ghost use Rattle.std.specs.Prelude.{◌≡◌, ◌+◌, ◌<◌, ◌^◌, ◌++◌, map, drop, IfOk, OnOk};
ghost use Rattle.ped_tree.specs.Numbering.{numbered, all_numbered, statement_count, statements_count};
ghost use Rattle.ped_tree.specs.Views.{stmt_tree, stmt_trees};
ghost use Rattle.ped_inline.specs.CallsPane as Spec;
ghost use Rattle.ped_inline.specs.CodeFolding.{called_seen};

use crate::blocks::is_block;
use ped_base::NoMemory;
use ped_tree::Stmt;
use std::alloc::Global;

/// A CALL that a marked block was made from.
#[derive(Clone, Copy)]
pub(crate) struct Called<'a> {
    /// The number of the block.
    pub(crate) number: u32,
    /// The CALL, as its block's comment has it.
    pub(crate) text: &'a [u8],
}

/// The CALLs of a program, in text order.
pub(crate) fn calls<'a>(alloc: Global, body: &'a [Stmt]) -> Result<Vec<Called<'a>>, NoMemory>
    requires { statements_count (stmt_trees body.now) + 1 < 2 ^ 32 }
    ensures { IfOk result (λ found. map called_seen found.items ≡ Spec.called_from 1 (all_numbered (stmt_trees body.now))) }
{
    let mut found = Vec::new(alloc);
    let mut next = 1;
    push_all(&mut found, &mut next, body)?;
    Ok(found)
}

/// Adds the CALLs of statements, one after another, of which the first has this number.
#[cycle(called)]
fn push_all<'a>(
    found: &mut Vec<Called<'a>>,
    next: &mut u32,
    statements: &'a [Stmt],
) -> Result<(), NoMemory>
    requires { next.old + statements_count (stmt_trees statements.now) < 2 ^ 32 }
    ensures found { OnOk result (map called_seen found.new.items ≡ map called_seen found.old.items ++ Spec.called_from next.old (all_numbered (stmt_trees statements.now))) }
    ensures next { OnOk result (next.new ≡ next.old + statements_count (stmt_trees statements.now)) }
{
    for statement in statements {
        push_statement(found, next, statement)?;
    }
    Ok(())
}

/// Adds the CALLs of a statement with this number and of those in it.
#[cycle(called)]
fn push_statement<'a>(
    found: &mut Vec<Called<'a>>,
    next: &mut u32,
    statement: &'a Stmt,
) -> Result<(), NoMemory>
    requires { next.old + statement_count (stmt_tree statement.now) < 2 ^ 32 }
    ensures found { OnOk result (map called_seen found.new.items ≡ map called_seen found.old.items ++ Spec.called_from next.old (numbered (stmt_tree statement.now))) }
    ensures next { OnOk result (next.new ≡ next.old + statement_count (stmt_tree statement.now)) }
{
    match statement {
        Stmt::Comment(_) => Ok(()),
        Stmt::If {
            condition: _,
            then_part,
            else_part,
        } => {
            push_own(found, *next, statement)?;
            *next += 1;
            push_all(found, next, then_part)?;
            push_all(found, next, else_part)
        }
        Stmt::Do(d) => {
            *next += 1;
            push_all(found, next, &d.body)
        }
        Stmt::Assign { left: _, right: _ } | Stmt::Print(_) | Stmt::Read(_) | Stmt::Stop => {
            *next += 1;
            Ok(())
        }
    }
}

/// Adds the CALL of a statement with this number, where that is a marked block.
fn push_own<'a>(
    found: &mut Vec<Called<'a>>,
    number: u32,
    statement: &'a Stmt,
) -> Result<(), NoMemory>
    ensures { OnOk result (map called_seen found.new.items ≡ map called_seen found.old.items ++ Spec.called_at number (stmt_tree statement.now)) }
{
    if is_block(statement) {
        found.push(Called {
            number,
            text: call_text(statement),
        })?;
    }
    Ok(())
}

/// The text of the CALL that a marked block was made from.
fn call_text(statement: &Stmt) -> &[u8]
    ensures { result.now ≡ Spec.call_text (stmt_tree statement.now) }
{
    match statement {
        Stmt::If {
            condition: _,
            then_part,
            else_part: _,
        } => first_mark(then_part),
        Stmt::Assign { left: _, right: _ }
        | Stmt::Do(_)
        | Stmt::Print(_)
        | Stmt::Read(_)
        | Stmt::Stop
        | Stmt::Comment(_) => b"",
    }
}

/// What the first of statements says after `$CALL `, where that is a comment.
fn first_mark(statements: &[Stmt]) -> &[u8]
    ensures { result.now ≡ Spec.first_mark (stmt_trees statements.now) }
{
    match statements.split_first() {
        Some((first, _)) => behind_mark(first),
        None => b"",
    }
}

/// What a comment says after `$CALL `.
fn behind_mark(statement: &Stmt) -> &[u8]
    ensures { result.now ≡ Spec.behind_mark (stmt_tree statement.now) }
{
    match statement {
        Stmt::Comment(text) => without_mark(text.as_slice()),
        Stmt::Assign { left: _, right: _ }
        | Stmt::If {
            condition: _,
            then_part: _,
            else_part: _,
        }
        | Stmt::Do(_)
        | Stmt::Print(_)
        | Stmt::Read(_)
        | Stmt::Stop => b"",
    }
}

/// The text without its first six characters.
fn without_mark(text: &[u8]) -> &[u8]
    ensures { result.now ≡ drop 6 text.now }
{
    if text.len() < 6 { b"" } else { &text[6..] }
}
