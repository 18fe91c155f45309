//! Printed lines: a statement's text cut into an initial line and continuation lines of fixed form
//! (ANSI X3.9-1978, section 3.2). If memory runs out, some of the lines may have been added.

ghost use Rattle.std.specs.Prelude.{◌≡◌, ◌<◌, ◌≤◌, ◌*◌, [], ◌∷◌, ◌++◌, map, length, codes, OnOk, IfOk};
ghost use Rattle.ped_tree.specs.Printing as Spec;
ghost use Rattle.ped_tree.specs.Printing.{blanks, indentation, continuation_lines, plain_line};
ghost use Rattle.ped_print.specs.PrintedLines.{line_of, cut};

use ped_base::{Bytes, NoMemory};
use std::alloc::Global;

/// How many characters of a statement are on a line, in columns 7 to 72.
const PIECE: usize = 66;

/// A printed line.
#[derive(Drop)]
pub struct Line {
    /// The number of the statement that begins on the line, where a numbered one does.
    pub statement: Option<u64>,
    /// The line's characters.
    pub text: Bytes,
}

/// Adds a line.
fn push_line(lines: &mut Vec<Line>, line: Line) -> Result<(), NoMemory>
    ensures lines { OnOk result (map line_of lines.new.items ≡ map line_of lines.old.items ++ line_of line ∷ []) }
    ensures longer { OnOk result (length lines.old.items < length lines.new.items) }
{
    lines.push(line)?;
    Ok(())
}

/// Adds a line without a statement's number.
pub fn push_plain(lines: &mut Vec<Line>, text: Bytes) -> Result<(), NoMemory>
    ensures lines { OnOk result (map line_of lines.new.items ≡ map line_of lines.old.items ++ plain_line text ∷ []) }
    ensures longer { OnOk result (length lines.old.items < length lines.new.items) }
{
    push_line(
        lines,
        Line {
            statement: None,
            text,
        },
    )
}

/// Adds the lines of a statement's text, its indentation included: the first has the statement's
/// number, where it has one.
pub fn push_text(
    alloc: Global,
    lines: &mut Vec<Line>,
    statement: Option<u64>,
    text: &[u8],
) -> Result<(), NoMemory>
    ensures lines { OnOk result (map line_of lines.new.items ≡ map line_of lines.old.items ++ cut statement text.now) }
    ensures longer { OnOk result (length lines.old.items < length lines.new.items) }
{
    let first = joined(alloc, b"      ", piece(text, 0))?;
    push_line(
        lines,
        Line {
            statement,
            text: first,
        },
    )?;
    push_continuations(alloc, lines, text)
}

/// Adds the continuation lines of a text.
fn push_continuations(alloc: Global, lines: &mut Vec<Line>, text: &[u8]) -> Result<(), NoMemory>
    ensures lines { OnOk result (map line_of lines.new.items
        ≡ map line_of lines.old.items ++ continuation_lines text.now) }
    ensures longer { OnOk result (length lines.old.items ≤ length lines.new.items) }
{
    for number in 1..text.len().div_ceil(PIECE) {
        push_plain(lines, joined(alloc, b"     &", piece(text, number))?)?;
    }
    Ok(())
}

/// The piece of a text with this number, from 0.
fn piece(text: &[u8], number: usize) -> &[u8]
    requires { 66 * number ≤ length text.now }
    ensures { result.now ≡ Spec.piece text.now number }
{
    let rest = &text[PIECE * number..];
    &rest[..PIECE.min(rest.len())]
}

/// Two texts, one after the other.
fn joined(alloc: Global, front: &[u8], rest: &[u8]) -> Result<Bytes, NoMemory>
    ensures { IfOk result (λ text. text ≡ front.now ++ rest.now) }
{
    let mut text = Bytes::new(alloc);
    text.extend_from_slice(front)?;
    text.extend_from_slice(rest)?;
    Ok(text)
}

/// Adds blanks.
pub fn push_blanks(out: &mut Bytes, count: usize) -> Result<(), NoMemory>
    ensures { OnOk result (out.new ≡ out.old ++ blanks count) }
{
    for _i in 0..count {
        out.push(b' ')?;
    }
    Ok(())
}

/// Adds two blanks for each DO loop and IF around a statement, at most 20.
pub fn push_indentation(out: &mut Bytes, depth: usize) -> Result<(), NoMemory>
    ensures { OnOk result (out.new ≡ out.old ++ indentation depth) }
{
    push_blanks(out, 2 * depth.min(10))
}
