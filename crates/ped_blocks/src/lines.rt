//! The first lines of statements, as a program keeps them.

ghost use Rattle.std.specs.Prelude.{◌≡◌, ◌++◌, map, replicate, IfOk, OnOk};
ghost use Rattle.ped_tree.specs.Views.{stmt_tree, stmt_trees};
ghost use Rattle.ped_tree.specs.Numbering.{statement_count, statements_count};
ghost use Rattle.ped_tree.specs.Grammar.ProgramForms as Spec;
ghost use Rattle.ped_tree.specs.Grammar.ItemViews.{behind_logical, entry_of, item_of, reading_of};

use ped_base::{Names, NoMemory};
use ped_tree::Stmt;
use ped_tree::grammar::{Entry, Item, StatementReading};
use std::alloc::Global;

/// The first line of each declaration, of each numbered statement and of each PRIVATE, in text order.
pub fn first_lines(alloc: Global, entries: &[Entry], saved: &Names) -> Result<Vec<u64>, NoMemory>
    ensures { IfOk result (λ lines. lines.items ≡ Spec.first_lines saved.now (map entry_of entries.now)) }
{
    let mut lines = Vec::new(alloc);
    for entry in entries {
        push_entry(&mut lines, entry, saved)?;
    }
    Ok(lines)
}

fn push_entry(lines: &mut Vec<u64>, entry: &Entry, saved: &Names) -> Result<(), NoMemory>
    ensures { OnOk result (lines.new.items
        ≡ lines.old.items ++ Spec.lines_of_reading saved.now entry.now.statement.line (reading_of entry.now.reading)) }
{
    match &entry.reading {
        StatementReading::Says(item) => push_item(lines, entry.statement.line, item, saved),
        StatementReading::OutsideProfile | StatementReading::NoForm => Ok(()),
    }
}

/// Adds the line of a statement once for a declaration and for PRIVATE, and once for each numbered
/// statement that it is.
#[tactic(auto, using(crate::proofs::Repeated::line_and_part, crate::proofs::Repeated::one_line))]
fn push_item(lines: &mut Vec<u64>, line: u64, item: &Item, saved: &Names) -> Result<(), NoMemory>
    ensures { OnOk result (lines.new.items ≡ lines.old.items ++ replicate (Spec.line_count saved.now (item_of item.now)) line) }
{
    match item {
        Item::Simple(stmt) => push_statement(lines, line, stmt),
        Item::LogicalIf(_, behind) => {
            lines.push(line)?;
            push_behind(lines, line, behind)
        }
        Item::SaveAll => {
            if !saved.is_empty() {
                lines.push(line)?;
            }
            Ok(())
        }
        Item::Declaration(_)
        | Item::BlockIf(_)
        | Item::ElseIf(_)
        | Item::Do(_)
        | Item::Private(_) => {
            lines.push(line)?;
            Ok(())
        }
        Item::Continue | Item::Else | Item::EndIf | Item::EndDo | Item::End => Ok(()),
    }
}

/// The same for the statement after a logical IF.
fn push_behind(lines: &mut Vec<u64>, line: u64, behind: &Option<Stmt>) -> Result<(), NoMemory>
    ensures { OnOk result (lines.new.items ≡ lines.old.items ++ replicate (statements_count (behind_logical behind.now)) line) }
{
    match behind {
        Some(stmt) => push_statement(lines, line, stmt),
        None => Ok(()),
    }
}

/// Adds the line once for each numbered statement that this one has, itself and those in its parts.
#[cycle(push_statement)]
#[tactic(auto, using(crate::proofs::Repeated::line_and_parts, crate::proofs::Repeated::line_and_part, crate::proofs::Repeated::one_line))]
fn push_statement(lines: &mut Vec<u64>, line: u64, stmt: &Stmt) -> Result<(), NoMemory>
    ensures { OnOk result (lines.new.items ≡ lines.old.items ++ replicate (statement_count (stmt_tree stmt.now)) line) }
{
    match stmt {
        Stmt::If {
            condition: _,
            then_part,
            else_part,
        } => {
            lines.push(line)?;
            push_statements(lines, line, then_part)?;
            push_statements(lines, line, else_part)
        }
        Stmt::Do(body) => {
            lines.push(line)?;
            push_statements(lines, line, &body.body)
        }
        Stmt::Comment(_) => Ok(()),
        Stmt::Assign { left: _, right: _ } | Stmt::Print(_) | Stmt::Read(_) | Stmt::Stop => {
            lines.push(line)?;
            Ok(())
        }
    }
}

#[cycle(push_statement)]
fn push_statements(lines: &mut Vec<u64>, line: u64, stmts: &[Stmt]) -> Result<(), NoMemory>
    ensures { OnOk result (lines.new.items ≡ lines.old.items ++ replicate (statements_count (stmt_trees stmts.now)) line) }
{
    for stmt in stmts {
        push_statement(lines, line, stmt)?;
    }
    Ok(())
}
