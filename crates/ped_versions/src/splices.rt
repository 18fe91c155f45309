//! Texts in which lines are replaced by others.

ghost use Rattle.std.specs.Prelude.{◌≡◌, ◌++◌, ◌∷◌, [], take, drop, IfOk, OnOk};
ghost use Rattle.ped_versions.specs.Splices as Spec;

use ped_base::{Bytes, NoMemory};
use ped_script::TextLines;
use std::alloc::Global;

/// How many lines a text has.
pub fn line_count(text: &[u8]) -> u64
    ensures { result ≡ Spec.line_count text.now }
{
    let mut lines = TextLines::new(text);
    while lines.next().is_some() {}
    lines.read()
}

/// A text with new lines after its first `kept` lines, in the place of the `gone` lines that go.
pub fn spliced(
    alloc: Global,
    text: &[u8],
    kept: u64,
    gone: u64,
    new: &[Bytes],
) -> Result<Bytes, NoMemory>
    ensures { IfOk result (λ all. all ≡ Spec.spliced text.now kept gone new.now) }
{
    let mut all = Bytes::new(alloc);
    let mut lines = TextLines::new(text);
    push_some(&mut all, &mut lines, kept)?;
    push_new(&mut all, new)?;
    pass_over(&mut lines, gone);
    push_rest(&mut all, &mut lines)?;
    Ok(all)
}

/// Adds `count` lines, or all where there are fewer.
fn push_some(all: &mut Bytes, lines: &mut TextLines<'_>, count: u64) -> Result<(), NoMemory>
    ensures added { OnOk result (all.new ≡ all.old ++ Spec.text_of_lines (take count lines.old.lines)) }
    ensures left { OnOk result (lines.new.lines ≡ drop count lines.old.lines) }
{
    for _ in 0..count {
        match lines.next() {
            Some(line) => push_line(all, line)?,
            None => return Ok(()),
        }
    }
    Ok(())
}

/// Adds these lines.
fn push_new(all: &mut Bytes, new: &[Bytes]) -> Result<(), NoMemory>
    ensures { OnOk result (all.new ≡ all.old ++ Spec.text_of_lines new.now) }
{
    for line in new {
        push_line(all, line.as_slice())?;
    }
    Ok(())
}

/// Passes over `count` lines, or all where there are fewer.
fn pass_over(lines: &mut TextLines<'_>, count: u64)
    ensures { lines.new.lines ≡ drop count lines.old.lines }
{
    for _ in 0..count {
        if lines.next().is_none() {
            return;
        }
    }
}

/// Adds all lines that are left.
fn push_rest(all: &mut Bytes, lines: &mut TextLines<'_>) -> Result<(), NoMemory>
    ensures { OnOk result (all.new ≡ all.old ++ Spec.text_of_lines lines.old.lines) }
{
    while let Some(line) = lines.next() {
        push_line(all, line)?;
    }
    Ok(())
}

/// Adds a line with its line feed.
fn push_line(all: &mut Bytes, line: &[u8]) -> Result<(), NoMemory>
    ensures { OnOk result (all.new ≡ all.old ++ line.now ++ 10 ∷ []) }
{
    all.extend_from_slice(line)?;
    all.push(b'\n')
}
