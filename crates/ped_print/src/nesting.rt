//! Statements as printed lines with their numbers, including those in the parts of an IF and in the
//! body of a DO. If memory runs out, some of the lines may have been added.

ghost use Rattle.std.specs.Prelude.{◌≡◌, ◌+◌, ◌<◌, ◌≤◌, ◌^◌, [], ◌∷◌, ◌++◌, map, length, codes, OnOk, IfOk, Some, None};
ghost use Rattle.ped_tree.specs.Numbering.{statement_count, statements_count};
ghost use Rattle.ped_tree.specs.Printing.{plain_line, own_text, text_lines, directive_lines, private_lines, else_lines, statement_lines, statements_lines};
ghost use Rattle.ped_tree.specs.Views.{stmt_tree, stmt_trees};
ghost use Rattle.ped_print.specs.PrintedLines.{line_of};

use crate::lines::{Line, push_indentation, push_plain, push_text};
use crate::statements::{push_own, push_private};
use ped_base::{Bytes, Name, NoMemory};
use ped_tree::{Do, Stmt};
use std::alloc::Global;

/// Adds the lines of statements with this many DO loops and IFs around them and this many numbered statements
/// before them, and returns how many begin before what comes after them. Each of these and each level has a
/// line of its own, so no number is too large.
#[cycle(nesting)]
pub fn push_statements(
    alloc: Global,
    lines: &mut Vec<Line>,
    depth: usize,
    before: u64,
    all: &[Stmt],
) -> Result<u64, NoMemory>
    requires depth { depth ≤ length lines.old.items }
    requires counted { before ≤ length lines.old.items }

    ensures lines { OnOk result (map line_of lines.new.items
        ≡ map line_of lines.old.items
        ++ statements_lines depth (before + 1) (stmt_trees all.now)) }
    ensures longer { OnOk result (length lines.old.items ≤ length lines.new.items) }
    ensures behind { IfOk result (λ behind. behind
        ≡ before + statements_count (stmt_trees all.now)) }
    ensures counted { IfOk result (λ behind. behind ≤ length lines.new.items) }
{
    let mut begun = before;
    for statement in all {
        begun = push_statement(alloc, lines, depth, begun, statement)?;
    }
    Ok(begun)
}

/// Adds the lines of a statement with this many DO loops and IFs around it and this many numbered statements
/// before it, and returns how many begin before what comes after it.
#[cycle(nesting)]
fn push_statement(
    alloc: Global,
    lines: &mut Vec<Line>,
    depth: usize,
    before: u64,
    statement: &Stmt,
) -> Result<u64, NoMemory>
    requires depth { depth ≤ length lines.old.items }
    requires counted { before ≤ length lines.old.items }

    ensures lines { OnOk result (map line_of lines.new.items
        ≡ map line_of lines.old.items
        ++ statement_lines depth (before + 1) (stmt_tree statement.now)) }
    ensures longer { OnOk result (length lines.old.items ≤ length lines.new.items) }
    ensures behind { IfOk result (λ behind. behind
        ≡ before + statement_count (stmt_tree statement.now)) }
    ensures counted { IfOk result (λ behind. behind ≤ length lines.new.items) }
{
    match statement {
        Stmt::Assign { .. } | Stmt::Print(_) | Stmt::Read(_) | Stmt::Stop => {
            push_first_line(alloc, lines, depth, before, statement)?;
            Ok(before + 1)
        }
        Stmt::If {
            then_part,
            else_part,
            ..
        } => {
            push_first_line(alloc, lines, depth, before, statement)?;
            let middle = push_statements(alloc, lines, depth + 1, before + 1, then_part)?;
            push_else_and_end(alloc, lines, depth, middle, else_part)
        }
        Stmt::Do(head) => {
            push_head(alloc, lines, depth, before, statement, head)?;
            let behind = push_statements(alloc, lines, depth + 1, before + 1, &head.body)?;
            push_words(alloc, lines, depth, b"END DO")?;
            Ok(behind)
        }
        Stmt::Comment(_) => {
            push_comment(alloc, lines, statement)?;
            Ok(before)
        }
    }
}

/// Adds the lines of the ELSE part of an IF with this many DO loops and IFs around it, and END IF, and
/// returns how many numbered statements begin before what comes after them.
#[cycle(nesting)]
fn push_else_and_end(
    alloc: Global,
    lines: &mut Vec<Line>,
    depth: usize,
    before: u64,
    all: &[Stmt],
) -> Result<u64, NoMemory>
    requires depth { depth < length lines.old.items }
    requires counted { before ≤ length lines.old.items }

    ensures lines { OnOk result (map line_of lines.new.items
        ≡ map line_of lines.old.items
        ++ else_lines depth (before + 1) (stmt_trees all.now)
        ++ text_lines None depth (codes "END IF")) }
    ensures longer { OnOk result (length lines.old.items < length lines.new.items) }
    ensures behind { IfOk result (λ behind. behind
        ≡ before + statements_count (stmt_trees all.now)) }
    ensures counted { IfOk result (λ behind. behind ≤ length lines.new.items) }
{
    let behind = push_else(alloc, lines, depth, before, all)?;
    push_words(alloc, lines, depth, b"END IF")?;
    Ok(behind)
}

/// Adds ELSE and the lines of its part with this many DO loops and IFs around the IF, nothing where the
/// part is empty, and returns how many numbered statements begin before what comes after it.
#[cycle(nesting)]
fn push_else(
    alloc: Global,
    lines: &mut Vec<Line>,
    depth: usize,
    before: u64,
    all: &[Stmt],
) -> Result<u64, NoMemory>
    requires depth { depth < length lines.old.items }
    requires counted { before ≤ length lines.old.items }

    ensures lines { OnOk result (map line_of lines.new.items
        ≡ map line_of lines.old.items
        ++ else_lines depth (before + 1) (stmt_trees all.now)) }
    ensures longer { OnOk result (length lines.old.items ≤ length lines.new.items) }
    ensures behind { IfOk result (λ behind. behind
        ≡ before + statements_count (stmt_trees all.now)) }
    ensures counted { IfOk result (λ behind. behind ≤ length lines.new.items) }
{
    if all.is_empty() {
        return Ok(before);
    }
    push_words(alloc, lines, depth, b"ELSE")?;
    push_statements(alloc, lines, depth + 1, before, all)
}

/// Adds the lines of a DO before its body: the directives, the statement by itself, and PRIVATE.
fn push_head(
    alloc: Global,
    lines: &mut Vec<Line>,
    depth: usize,
    before: u64,
    statement: &Stmt,
    head: &Do,
) -> Result<(), NoMemory>
    requires depth { depth ≤ length lines.old.items }
    requires counted { before ≤ length lines.old.items }

    ensures lines { OnOk result (map line_of lines.new.items
        ≡ map line_of lines.old.items
        ++ (directive_lines head.now.rejected
        ++ text_lines (Some (before + 1)) depth (own_text (stmt_tree statement.now))
        ++ private_lines (depth + 1) head.now.private)) }
    ensures longer { OnOk result (length lines.old.items < length lines.new.items) }
{
    push_directives(alloc, lines, head.rejected.as_slice())?;
    push_first_line(alloc, lines, depth, before, statement)?;
    push_private_line(alloc, lines, depth + 1, head.private.as_slice())
}

/// Adds the lines of a numbered statement by itself.
fn push_first_line(
    alloc: Global,
    lines: &mut Vec<Line>,
    depth: usize,
    before: u64,
    statement: &Stmt,
) -> Result<(), NoMemory>
    requires { before ≤ length lines.old.items }
    ensures lines { OnOk result (map line_of lines.new.items
        ≡ map line_of lines.old.items
        ++ text_lines (Some (before + 1)) depth (own_text (stmt_tree statement.now))) }
    ensures longer { OnOk result (length lines.old.items < length lines.new.items) }
{
    let mut text = Bytes::new(alloc);
    push_indentation(&mut text, depth)?;
    push_own(&mut text, statement)?;
    push_text(alloc, lines, Some(before + 1), text.as_slice())
}

/// Adds the line of a comment, which begins at column 1.
fn push_comment(alloc: Global, lines: &mut Vec<Line>, comment: &Stmt) -> Result<(), NoMemory>
    ensures lines { OnOk result (map line_of lines.new.items
        ≡ map line_of lines.old.items ++ plain_line (own_text (stmt_tree comment.now)) ∷ []) }
    ensures longer { OnOk result (length lines.old.items < length lines.new.items) }
{
    let mut text = Bytes::new(alloc);
    push_own(&mut text, comment)?;
    push_plain(lines, text)
}

/// Adds the line of a statement without a number: ELSE, END IF, END DO or END.
pub fn push_words(
    alloc: Global,
    lines: &mut Vec<Line>,
    depth: usize,
    words: &[u8],
) -> Result<(), NoMemory>
    ensures lines { OnOk result (map line_of lines.new.items
        ≡ map line_of lines.old.items ++ text_lines None depth words.now) }
    ensures longer { OnOk result (length lines.old.items < length lines.new.items) }
{
    let mut text = Bytes::new(alloc);
    push_indentation(&mut text, depth)?;
    text.extend_from_slice(words)?;
    push_text(alloc, lines, None, text.as_slice())
}

/// Adds the directives before a DO, one for each rejected name.
fn push_directives(alloc: Global, lines: &mut Vec<Line>, names: &[Name]) -> Result<(), NoMemory>
    ensures lines { OnOk result (map line_of lines.new.items
        ≡ map line_of lines.old.items ++ directive_lines names.now) }
    ensures longer { OnOk result (length lines.old.items ≤ length lines.new.items) }
{
    for name in names {
        push_plain(lines, directive(alloc, name)?)?;
    }
    Ok(())
}

/// The directive that rejects the pending dependences on a name.
fn directive(alloc: Global, name: &Name) -> Result<Bytes, NoMemory>
    ensures { IfOk result (λ text. text ≡ codes "C$PED REJECT " ++ name.now) }
{
    let mut text = Bytes::new(alloc);
    text.extend_from_slice(b"C$PED REJECT ")?;
    text.extend_from_slice(name.as_bytes())?;
    Ok(text)
}

/// Adds the PRIVATE statement of a DO with this depth of its body, nothing where it has no names.
fn push_private_line(
    alloc: Global,
    lines: &mut Vec<Line>,
    depth: usize,
    names: &[Name],
) -> Result<(), NoMemory>
    ensures lines { OnOk result (map line_of lines.new.items
        ≡ map line_of lines.old.items ++ private_lines depth names.now) }
    ensures longer { OnOk result (length lines.old.items ≤ length lines.new.items) }
{
    if names.is_empty() {
        return Ok(());
    }
    let mut text = Bytes::new(alloc);
    push_indentation(&mut text, depth)?;
    push_private(&mut text, names)?;
    push_text(alloc, lines, None, text.as_slice())
}
