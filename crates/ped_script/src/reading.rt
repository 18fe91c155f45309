//! A script read from its first line to its last.

ghost use Rattle.std.specs.Prelude.{◌≡◌, ◌+◌, List, drop, MatchOption, IfOk, OnOk};
ghost use Rattle.ped_script.specs.Words.{Text};
ghost use Rattle.ped_script.specs.Heads.{headed};
ghost use Rattle.ped_script.specs.Items as Items;
ghost use Rattle.ped_script.specs.Items.{commands_of, text_of, text_count, evidence_of, whole_command, taken_lines};

use crate::claims::evidence_line;
use crate::items::{Command, Item, Script};
use crate::lines::TextLines;
use crate::rows::command;
use crate::words::{has_word, is_word};
use ped_base::{Bytes, Listed, NoMemory};
use ped_certificates::Evidence;
use std::alloc::Global;

/// The items of a script in their order, one for each line that has a word and isn't in the text of a command.
/// A line of other words than those of a command is an item without a command, and so is one whose text no line
/// with a period alone ends; that text takes all remaining lines. The only error is running out of memory.
pub fn commands(alloc: Global, script: &[u8]) -> Result<Script, NoMemory>
    ensures { IfOk result (λ items. items ≡ commands_of script.now) }
{
    let mut items = Script::new(alloc);
    let mut lines = TextLines::new(script);
    while let Some(line) = lines.next() {
        if !has_word(line) {
            continue;
        }
        let number = lines.read();
        let words = command(alloc, line)?;
        let command = whole(alloc, words, &mut lines)?;
        items.push(Item {
            line: number,
            command,
        })?;
    }
    Ok(items)
}

/// A command that takes a text, by what its words say.
#[derive(Clone, Copy)]
pub enum Head {
    /// Puts lines in the place of these.
    Replace { first: u64, last: u64 },
    /// Puts lines after this one.
    Insert { after: u64 },
    /// Interchanges this loop and the loop in it.
    InterchangeBy(u32),
    /// Reverses this loop.
    ReverseBy(u32),
    /// Makes this loop parallel.
    ParallelBy(u32),
}

/// A command with its text, which is taken from the lines that follow where it takes one; none where the text has
/// no end.
fn whole(
    alloc: Global,
    command: Option<Command>,
    lines: &mut TextLines<'_>,
) -> Result<Option<Command>, NoMemory>
    ensures command { IfOk result (λ c. c ≡ whole_command command lines.old.lines) }
    ensures lines { OnOk result (lines.new.lines ≡ drop (taken_lines command lines.old.lines) lines.old.lines) }
    ensures read { OnOk result (lines.new.read ≡ lines.old.read + taken_lines command lines.old.lines) }
{
    match head_of(&command) {
        Some(head) => with_text(alloc, head, lines),
        None => Ok(command),
    }
}

/// What the words of a command say, where it takes a text.
fn head_of(command: &Option<Command>) -> Option<Head>
    ensures { MatchOption result
        ((following : List Text) → (whole_command command.now following ≡ command.now) × (taken_lines command.now following ≡ 0))
        (λ head. (following : List Text) → (whole_command command.now following ≡ headed head following) × (taken_lines command.now following ≡ text_count following)) }
{
    match command {
        Some(Command::Replace { first, last, .. }) => Some(Head::Replace {
            first: *first,
            last: *last,
        }),
        Some(Command::Insert { after, .. }) => Some(Head::Insert { after: *after }),
        Some(Command::InterchangeBy(number, _)) => Some(Head::InterchangeBy(*number)),
        Some(Command::ReverseBy(number, _)) => Some(Head::ReverseBy(*number)),
        Some(Command::ParallelBy(number, _)) => Some(Head::ParallelBy(*number)),
        _ => None,
    }
}

/// The command with this head and the text that follows; none where the text has no end.
fn with_text(
    alloc: Global,
    head: Head,
    lines: &mut TextLines<'_>,
) -> Result<Option<Command>, NoMemory>
    ensures command { IfOk result (λ c. c ≡ headed head lines.old.lines) }
    ensures lines { OnOk result (lines.new.lines ≡ drop (text_count lines.old.lines) lines.old.lines) }
    ensures read { OnOk result (lines.new.read ≡ lines.old.read + text_count lines.old.lines) }
{
    match head {
        Head::Replace { first, last } => match text(alloc, lines)? {
            Some(lines) => Ok(Some(Command::Replace { first, last, lines })),
            None => Ok(None),
        },
        Head::Insert { after } => match text(alloc, lines)? {
            Some(lines) => Ok(Some(Command::Insert { after, lines })),
            None => Ok(None),
        },
        Head::InterchangeBy(number) => match evidence(alloc, lines)? {
            Some(evidence) => Ok(Some(Command::InterchangeBy(number, evidence))),
            None => Ok(None),
        },
        Head::ReverseBy(number) => match evidence(alloc, lines)? {
            Some(evidence) => Ok(Some(Command::ReverseBy(number, evidence))),
            None => Ok(None),
        },
        Head::ParallelBy(number) => match evidence(alloc, lines)? {
            Some(evidence) => Ok(Some(Command::ParallelBy(number, evidence))),
            None => Ok(None),
        },
    }
}

/// Takes the text of a command, with the period after it; none where there is no such line, and then all lines
/// are taken.
fn text(alloc: Global, lines: &mut TextLines<'_>) -> Result<Option<Listed<Bytes>>, NoMemory>
    ensures text { IfOk result (λ text. text ≡ text_of lines.old.lines) }
    ensures lines { OnOk result (lines.new.lines ≡ drop (text_count lines.old.lines) lines.old.lines) }
    ensures read { OnOk result (lines.new.read ≡ lines.old.read + text_count lines.old.lines) }
{
    let mut text = Listed::new(alloc);
    while let Some(line) = lines.next() {
        if is_end(line) {
            return Ok(Some(text));
        }
        text.push(Bytes::from_vec(Vec::from_slice(alloc, line)?))?;
    }
    Ok(None)
}

/// Takes the text of evidence line by line, with the period after it; none where there is no such line, and then all
/// lines are taken.
fn evidence(alloc: Global, lines: &mut TextLines<'_>) -> Result<Option<Evidence>, NoMemory>
    ensures evidence { IfOk result (λ evidence. evidence ≡ evidence_of lines.old.lines) }
    ensures lines { OnOk result (lines.new.lines ≡ drop (text_count lines.old.lines) lines.old.lines) }
    ensures read { OnOk result (lines.new.read ≡ lines.old.read + text_count lines.old.lines) }
{
    let mut evidence = Evidence::new(alloc);
    while let Some(line) = lines.next() {
        if is_end(line) {
            return Ok(Some(evidence));
        }
        evidence.push(evidence_line(alloc, line)?)?;
    }
    Ok(None)
}

/// Whether a line is a period alone.
fn is_end(line: &[u8]) -> bool
    ensures { result ≡ Items.is_end line.now }
{
    is_word(line, b".")
}
