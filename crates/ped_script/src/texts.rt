//! The text of a command, as it is written in a script.

ghost use Rattle.std.specs.Prelude.{◌≡◌, ◌∷◌, ◌++◌, [], map, IfOk, OnOk};
ghost use Rattle.std.specs.Fmt.{decimal, signed_decimal};
ghost use Rattle.std.specs.List.{flat_map};
ghost use Rattle.ped_script.specs.CommandTexts as Spec;
ghost use Rattle.ped_script.specs.CommandTexts.{line_of, behind};

use crate::items::Command;
use ped_base::{Bytes, Name, NoMemory, push_number, push_signed};
use ped_certificates::{Position, Sign, push_pattern, push_place};
use std::alloc::Global;

/// The text of a command: its words with a blank between two, as the table of commands has them. The lines of an edit
/// and of evidence aren't part of it. The only error is running out of memory.
pub fn command_text(alloc: Global, command: &Command) -> Result<Bytes, NoMemory>
    ensures { IfOk result (λ text. text ≡ Spec.command_text command.now) }
{
    match command {
        Command::Source => return alone(alloc, b"source"),
        Command::Deps(None) => return alone(alloc, b"deps"),
        Command::Deps(Some(number)) => return with_number(alloc, b"deps", *number),
        Command::Show => return alone(alloc, b"show"),
        Command::Calls => return alone(alloc, b"calls"),
        Command::Print => return alone(alloc, b"print"),
        Command::Advise(number) => return with_number(alloc, b"advise", *number),
        Command::Replace { first, last, .. } => return with_two(alloc, b"replace", *first, *last),
        Command::Insert { after, .. } => return with_line(alloc, b"insert", *after),
        Command::Delete { first, last } => return with_two(alloc, b"delete", *first, *last),
        Command::Interchange(number) => return with_number(alloc, b"interchange", *number),
        Command::Reverse(number) => return with_number(alloc, b"reverse", *number),
        Command::Skew(number, factor) => return with_signed(alloc, b"skew", *number, *factor),
        Command::Strip(number, size) => return with_signed(alloc, b"strip", *number, *size),
        Command::Peel { statement, last } => return peel(alloc, *statement, *last),
        Command::Distribute(number) => return with_number(alloc, b"distribute", *number),
        Command::Fuse(number) => return with_number(alloc, b"fuse", *number),
        Command::Inline(number) => return with_number(alloc, b"inline", *number),
        Command::Expand(number, name) => return with_name(alloc, b"expand", *number, name),
        Command::Privatise(number, name) => return with_name(alloc, b"privatise", *number, name),
        Command::Reduce(number, names) => return reduce(alloc, *number, names.as_slice()),
        Command::Parallel(number) => return with_number(alloc, b"parallel", *number),
        Command::InterchangeBy(number, _) => {
            return with_word(alloc, b"interchange", *number, b"by");
        }
        Command::ReverseBy(number, _) => return with_word(alloc, b"reverse", *number, b"by"),
        Command::ParallelBy(number, _) => return with_word(alloc, b"parallel", *number, b"by"),
        Command::Serial(number) => return with_number(alloc, b"serial", *number),
        Command::Reject(number, name) => return with_name(alloc, b"reject", *number, name),
        Command::Auto => return alone(alloc, b"auto"),
        Command::Undo => return alone(alloc, b"undo"),
        Command::Redo => return alone(alloc, b"redo"),
        Command::Run(choices) => return run(alloc, choices.as_slice()),
        Command::Races => return alone(alloc, b"races"),
        Command::Tested => return alone(alloc, b"tested"),
        Command::System(source, sink, pattern) => {
            return system(alloc, source, sink, pattern.as_slice());
        }
    }
}

/// A word alone.
fn alone(alloc: Global, word: &[u8]) -> Result<Bytes, NoMemory>
    ensures { IfOk result (λ text. text ≡ line_of (word.now ∷ [])) }
{
    let mut text = Bytes::new(alloc);
    text.extend_from_slice(word)?;
    Ok(text)
}

/// A word and the number of a statement.
fn with_number(alloc: Global, word: &[u8], number: u32) -> Result<Bytes, NoMemory>
    ensures { IfOk result (λ text. text ≡ line_of (word.now ∷ decimal number ∷ [])) }
{
    with_line(alloc, word, u64::from(number))
}

/// A word and the number of a line.
fn with_line(alloc: Global, word: &[u8], number: u64) -> Result<Bytes, NoMemory>
    ensures { IfOk result (λ text. text ≡ line_of (word.now ∷ decimal number ∷ [])) }
{
    let mut text = alone(alloc, word)?;
    push_choice(&mut text, number)?;
    Ok(text)
}

/// A word and the numbers of two lines.
fn with_two(alloc: Global, word: &[u8], first: u64, last: u64) -> Result<Bytes, NoMemory>
    ensures { IfOk result (λ text. text ≡ line_of (word.now ∷ decimal first ∷ decimal last ∷ [])) }
{
    let mut text = with_line(alloc, word, first)?;
    push_choice(&mut text, last)?;
    Ok(text)
}

/// A word, the number of a statement and a number that may be negative.
fn with_signed(alloc: Global, word: &[u8], number: u32, last: i64) -> Result<Bytes, NoMemory>
    ensures { IfOk result (λ text. text ≡ line_of (word.now ∷ decimal number ∷ signed_decimal last ∷ [])) }
{
    let mut text = with_number(alloc, word, number)?;
    text.push(b' ')?;
    push_signed(&mut text, i128::from(last))?;
    Ok(text)
}

/// A word, the number of a statement and another word.
fn with_word(alloc: Global, word: &[u8], number: u32, last: &[u8]) -> Result<Bytes, NoMemory>
    ensures { IfOk result (λ text. text ≡ line_of (word.now ∷ decimal number ∷ last.now ∷ [])) }
{
    let mut text = with_number(alloc, word, number)?;
    push_word(&mut text, last)?;
    Ok(text)
}

/// A word, the number of a statement and a name.
fn with_name(alloc: Global, word: &[u8], number: u32, name: &Name) -> Result<Bytes, NoMemory>
    ensures { IfOk result (λ text. text ≡ line_of (word.now ∷ decimal number ∷ name.now ∷ [])) }
{
    with_word(alloc, word, number, name.as_bytes())
}

/// A peeling of this loop at one end.
fn peel(alloc: Global, number: u32, last: bool) -> Result<Bytes, NoMemory>
    ensures { IfOk result (λ text. text ≡ line_of (Spec.peel_words number last)) }
{
    if last {
        return with_word(alloc, b"peel", number, b"last");
    }
    with_word(alloc, b"peel", number, b"first")
}

/// A reduction of this loop with these names.
fn reduce(alloc: Global, number: u32, names: &[Name]) -> Result<Bytes, NoMemory>
    ensures { IfOk result (λ text. text ≡ line_of (Spec.reduce_words number names.now)) }
{
    let mut text = with_number(alloc, b"reduce", number)?;
    push_names(&mut text, names)?;
    Ok(text)
}

/// A run with these choices.
fn run(alloc: Global, choices: &[u64]) -> Result<Bytes, NoMemory>
    ensures { IfOk result (λ text. text ≡ line_of (Spec.run_words choices.now)) }
{
    let mut text = alone(alloc, b"run")?;
    push_choices(&mut text, choices)?;
    Ok(text)
}

/// A query for the system of a pair and a pattern.
fn system(
    alloc: Global,
    source: &Position,
    sink: &Position,
    pattern: &[Sign],
) -> Result<Bytes, NoMemory>
    ensures { IfOk result (λ text. text ≡ line_of (Spec.system_words source.now sink.now pattern.now)) }
{
    let mut text = alone(alloc, b"system")?;
    text.push(b' ')?;
    push_place(&mut text, source)?;
    text.push(b' ')?;
    push_place(&mut text, sink)?;
    text.push(b' ')?;
    push_pattern(&mut text, pattern)?;
    Ok(text)
}

/// Adds names, each after a blank.
fn push_names(text: &mut Bytes, names: &[Name]) -> Result<(), NoMemory>
    ensures { OnOk result (text.new ≡ text.old ++ behind names.now) }
{
    for name in names {
        text.push(b' ')?;
        text.extend_from_slice(name.as_bytes())?;
    }
    Ok(())
}

/// Adds numbers, each after a blank.
fn push_choices(text: &mut Bytes, choices: &[u64]) -> Result<(), NoMemory>
    ensures { OnOk result (text.new ≡ text.old ++ behind (map decimal choices.now)) }
{
    for choice in choices {
        text.push(b' ')?;
        push_number(text, *choice)?;
    }
    Ok(())
}

/// Adds a word after a blank.
fn push_word(text: &mut Bytes, word: &[u8]) -> Result<(), NoMemory>
    ensures { OnOk result (text.new ≡ text.old ++ behind (word.now ∷ [])) }
{
    text.push(b' ')?;
    text.extend_from_slice(word)
}

/// Adds a number after a blank.
fn push_choice(text: &mut Bytes, number: u64) -> Result<(), NoMemory>
    ensures { OnOk result (text.new ≡ text.old ++ behind (decimal number ∷ [])) }
{
    text.push(b' ')?;
    push_number(text, number)
}
