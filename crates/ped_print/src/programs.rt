//! A whole program: its declarations, its statements and END, as printed text and as the source pane.

ghost use Rattle.std.specs.Prelude.{◌≡◌, ◌≤◌, [], ◌∷◌, ◌++◌, map, length, OnOk, IfOk};
ghost use Rattle.std.specs.List.{flat_map};
ghost use Rattle.ped_tree.specs.Printing;
ghost use Rattle.ped_tree.specs.Printing.{decl_lines, program_text};
ghost use Rattle.ped_tree.specs.SourcePane as Pane;
ghost use Rattle.ped_tree.specs.Views.{decl_tree, program_tree};
ghost use Rattle.ped_print.specs.PrintedLines.{line_of};

use crate::declarations::{is_remark, push_decl};
use crate::lines::{Line, push_plain, push_text};
use crate::nesting::{push_statements, push_words};
use crate::pane::push_pane;
use ped_base::{Bytes, NoMemory};
use ped_tree::{Decl, Program};
use std::alloc::Global;

/// The printed text of a program, in the fixed form of ANSI X3.9-1978, section 3: one statement a
/// line with its continuation lines, two blanks of indentation for each DO and IF around it, each DO
/// ended by an END DO of its own.
pub fn print(alloc: Global, program: &Program) -> Result<Bytes, NoMemory>
    ensures { IfOk result (λ text. text ≡ program_text (program_tree program.now)) }
{
    let lines = program_lines(alloc, program)?;
    let mut text = Bytes::new(alloc);
    push_texts(&mut text, &lines)?;
    Ok(text)
}

/// The source pane of a program: its printed lines with their numbers and those of its statements.
pub fn source_pane(alloc: Global, program: &Program) -> Result<Bytes, NoMemory>
    ensures { IfOk result (λ pane. pane ≡ Pane.source_pane (program_tree program.now)) }
{
    let lines = program_lines(alloc, program)?;
    let mut pane = Bytes::new(alloc);
    push_pane(&mut pane, &lines)?;
    Ok(pane)
}

/// Adds the characters of lines, each with an end of line.
fn push_texts(out: &mut Bytes, lines: &[Line]) -> Result<(), NoMemory>
    ensures { OnOk result (out.new
        ≡ out.old ++ flat_map (λ l. l.text ++ 10 ∷ []) (map line_of lines.now)) }
{
    for line in lines {
        out.extend_from_slice(line.text.as_slice())?;
        out.push(b'\n')?;
    }
    Ok(())
}

/// The lines of a program.
pub(crate) fn program_lines(alloc: Global, program: &Program) -> Result<Vec<Line>, NoMemory>
    ensures { IfOk result (λ lines. map line_of lines.items
        ≡ Printing.program_lines (program_tree program.now)) }
{
    let mut lines = Vec::new(alloc);
    push_decls(alloc, &mut lines, &program.decls)?;
    push_statements(alloc, &mut lines, 0, 0, &program.body)?;
    push_words(alloc, &mut lines, 0, b"END")?;
    Ok(lines)
}

/// Adds the lines of declarations.
fn push_decls(alloc: Global, lines: &mut Vec<Line>, all: &[Decl]) -> Result<(), NoMemory>
    ensures { OnOk result (map line_of lines.new.items
        ≡ map line_of lines.old.items ++ flat_map decl_lines (map decl_tree all.now)) }
{
    for decl in all {
        push_decl_lines(alloc, lines, decl)?;
    }
    Ok(())
}

/// Adds the lines of a declaration: a comment begins at column 1.
fn push_decl_lines(alloc: Global, lines: &mut Vec<Line>, decl: &Decl) -> Result<(), NoMemory>
    ensures { OnOk result (map line_of lines.new.items
        ≡ map line_of lines.old.items ++ decl_lines (decl_tree decl.now)) }
{
    let mut text = Bytes::new(alloc);
    push_decl(&mut text, decl)?;
    if is_remark(decl) {
        return push_plain(lines, text);
    }
    push_text(alloc, lines, None, text.as_slice())
}
