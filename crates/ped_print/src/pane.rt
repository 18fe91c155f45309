//! The source pane: the printed lines of a program, each after its line number and the number of the
//! statement that begins on it. If memory runs out, the pane ends somewhere in its text.

ghost use Rattle.std.specs.Prelude.{◌≡◌, ◌++◌, map, OnOk};
ghost use Rattle.std.specs.Fmt.{decimal};
ghost use Rattle.ped_tree.specs.SourcePane as Spec;
ghost use Rattle.ped_print.specs.PrintedLines.{line_of};

use crate::lines::{Line, push_blanks};
use itoa::Buffer;
use ped_base::{Bytes, NoMemory, push_number};

/// Adds the source pane: `source` and the number of lines, and then the lines.
pub fn push_pane(out: &mut Bytes, lines: &[Line]) -> Result<(), NoMemory>
    ensures { OnOk result (out.new ≡ out.old ++ Spec.source_pane_of (map line_of lines.now)) }
{
    out.extend_from_slice(b"source ")?;
    push_number(out, lines.len() as u64)?;
    out.push(b'\n')?;
    push_rows(out, lines)
}

/// Adds the rows of lines, numbered from 1.
fn push_rows(out: &mut Bytes, lines: &[Line]) -> Result<(), NoMemory>
    ensures { OnOk result (out.new ≡ out.old ++ Spec.source_rows 1 (map line_of lines.now)) }
{
    for (i, line) in lines.iter().enumerate() {
        push_row(out, i + 1, line)?;
    }
    Ok(())
}

/// Adds the row of a line.
fn push_row(out: &mut Bytes, number: usize, line: &Line) -> Result<(), NoMemory>
    ensures { OnOk result (out.new ≡ out.old ++ Spec.source_row number (line_of line.now)) }
{
    push_line_number(out, number)?;
    out.push(b' ')?;
    push_statement_number(out, line.statement)?;
    out.push(b' ')?;
    out.extend_from_slice(line.text.as_slice())?;
    out.push(b'\n')
}

/// Adds a line number, in five places, or as many as it has digits.
pub fn push_line_number(out: &mut Bytes, number: usize) -> Result<(), NoMemory>
    ensures { OnOk result (out.new ≡ out.old ++ Spec.line_number_column number) }
{
    push_right_aligned(out, 5, number as u64)
}

/// Adds a statement number, in four places, or as many as it has digits; blanks where there is none.
pub fn push_statement_number(out: &mut Bytes, number: Option<u64>) -> Result<(), NoMemory>
    ensures { OnOk result (out.new ≡ out.old ++ Spec.statement_number_column number) }
{
    match number {
        Some(number) => push_right_aligned(out, 4, number),
        None => push_blanks(out, 4),
    }
}

/// Adds the digits of a number after as many blanks as make it this many places, none where it has more.
fn push_right_aligned(out: &mut Bytes, places: usize, number: u64) -> Result<(), NoMemory>
    ensures { OnOk result (out.new ≡ out.old ++ Spec.right_aligned places (decimal number)) }
{
    let mut buffer = Buffer::new();
    let digits = buffer.format(number).as_bytes();
    push_blanks(out, places.saturating_sub(digits.len()))?;
    out.extend_from_slice(digits)
}
