//! The command of one line, by its words.

ghost use Rattle.std.specs.Prelude.{◌≡◌, [], ◌∷◌, false, codes, List, ℕ, Some, IfOk};
ghost use Rattle.ped_base.specs.Lists.{is_same_text};
ghost use Rattle.ped_script.specs.Words.{Text, words_of, number_of, numbers_of, names_of};
ghost use Rattle.ped_script.specs.Rows.{command_of, few_names};
ghost use Rattle.ped_script.specs.declared.items.Command.TheVariants.{Reduce};
ghost use Rattle.ped_script.specs.Shapes as Shapes;

use crate::claims::{first_place, pattern};
use crate::items::Command;
use crate::words::{choice, factor, first_word, has_word, is_word, name, number};
use ped_base::{Listed, Names, NoMemory};
use std::alloc::Global;

/// The most scalars that one reduction takes.
const MOST_SUMS: usize = 8;

/// The command of a line, where its words are one. The text of an edit or of evidence is on other lines, and is
/// empty here.
pub fn command(alloc: Global, line: &[u8]) -> Result<Option<Command>, NoMemory>
    ensures { IfOk result (λ c. c ≡ command_of (words_of line.now)) }
{
    let Some((first, rest)) = first_word(line) else {
        return Ok(None);
    };
    if is_word(first, b"run") {
        return run(alloc, rest);
    }
    if is_word(first, b"reduce") {
        return reduce(alloc, rest);
    }
    if is_word(first, b"system") {
        return system(alloc, rest);
    }
    let Some((second, rest)) = first_word(rest) else {
        return Ok(alone(first));
    };
    let Some(n) = number(second) else {
        return Ok(None);
    };
    let Some((third, rest)) = first_word(rest) else {
        return Ok(with_number(alloc, first, n));
    };
    if has_word(rest) {
        return Ok(None);
    }
    Ok(with_two(alloc, first, n, third))
}

/// A run, where these words are its choices.
fn run(alloc: Global, line: &[u8]) -> Result<Option<Command>, NoMemory>
    ensures { IfOk result (λ c. c ≡ command_of (codes "run" ∷ words_of line.now)) }
{
    let mut choices = Listed::new(alloc);
    let mut left = line;
    while let Some((word, rest)) = first_word(left) {
        let Some(number) = choice(word) else {
            return Ok(None);
        };
        choices.push(number)?;
        left = rest;
    }
    Ok(Some(Command::Run(choices)))
}

/// A reduction, where these words are the number of its loop and one to eight names.
fn reduce(alloc: Global, line: &[u8]) -> Result<Option<Command>, NoMemory>
    ensures { IfOk result (λ c. c ≡ command_of (codes "reduce" ∷ words_of line.now)) }
{
    let Some((word, rest)) = first_word(line) else {
        return Ok(None);
    };
    let Some(n) = number(word) else {
        return Ok(None);
    };
    reduce_at(alloc, n, rest)
}

/// A query for a system, where these words are two places and a pattern.
fn system(alloc: Global, line: &[u8]) -> Result<Option<Command>, NoMemory>
    ensures { IfOk result (λ c. c ≡ command_of (codes "system" ∷ words_of line.now)) }
{
    let Some((source, rest)) = first_place(line) else {
        return Ok(None);
    };
    let Some((sink, rest)) = first_place(rest) else {
        return Ok(None);
    };
    let Some((word, rest)) = first_word(rest) else {
        return Ok(None);
    };
    if has_word(rest) {
        return Ok(None);
    }
    let Some(pattern) = pattern(alloc, word)? else {
        return Ok(None);
    };
    Ok(Some(Command::System(source, sink, pattern)))
}

/// A reduction at this loop, where these words are one to eight names.
fn reduce_at(alloc: Global, n: u32, line: &[u8]) -> Result<Option<Command>, NoMemory>
    ensures { IfOk result (λ c. c ≡ few_names (λ names. Reduce n names) (words_of line.now)) }
{
    let Some(names) = names(alloc, line)? else {
        return Ok(None);
    };
    if names.is_empty() || names.len() > MOST_SUMS {
        return Ok(None);
    }
    Ok(Some(Command::Reduce(n, names)))
}

/// The names that the words of a line write, where each of them writes one.
fn names(alloc: Global, line: &[u8]) -> Result<Option<Names>, NoMemory>
    ensures { IfOk result (λ names. names ≡ names_of (words_of line.now)) }
{
    let mut names = Names::new(alloc);
    let mut left = line;
    while let Some((word, rest)) = first_word(left) {
        let Some(name) = name(word) else {
            return Ok(None);
        };
        names.push(name)?;
        left = rest;
    }
    Ok(Some(names))
}

/// The command that is one word.
#[tactic(auto, unfolding(crate::specs::Shapes::alone))]
fn alone(word: &[u8]) -> Option<Command>
    ensures { result ≡ Shapes.alone word.now }
{
    if is_word(word, b"source") {
        return Some(Command::Source);
    }
    if is_word(word, b"deps") {
        return Some(Command::Deps(None));
    }
    if is_word(word, b"show") {
        return Some(Command::Show);
    }
    if is_word(word, b"calls") {
        return Some(Command::Calls);
    }
    if is_word(word, b"print") {
        return Some(Command::Print);
    }
    if is_word(word, b"auto") {
        return Some(Command::Auto);
    }
    if is_word(word, b"undo") {
        return Some(Command::Undo);
    }
    if is_word(word, b"redo") {
        return Some(Command::Redo);
    }
    if is_word(word, b"races") {
        return Some(Command::Races);
    }
    if is_word(word, b"tested") {
        return Some(Command::Tested);
    }
    None
}

/// The command that is a word and a number.
#[tactic(auto, unfolding(crate::specs::Shapes::with_number))]
fn with_number(alloc: Global, word: &[u8], n: u32) -> Option<Command>
    ensures { result ≡ Shapes.with_number word.now n }
{
    if is_word(word, b"deps") {
        return Some(Command::Deps(Some(n)));
    }
    if is_word(word, b"advise") {
        return Some(Command::Advise(n));
    }
    if is_word(word, b"insert") {
        return Some(Command::Insert {
            after: u64::from(n),
            lines: Listed::new(alloc),
        });
    }
    if is_word(word, b"interchange") {
        return Some(Command::Interchange(n));
    }
    if is_word(word, b"reverse") {
        return Some(Command::Reverse(n));
    }
    if is_word(word, b"distribute") {
        return Some(Command::Distribute(n));
    }
    if is_word(word, b"fuse") {
        return Some(Command::Fuse(n));
    }
    if is_word(word, b"inline") {
        return Some(Command::Inline(n));
    }
    if is_word(word, b"parallel") {
        return Some(Command::Parallel(n));
    }
    if is_word(word, b"serial") {
        return Some(Command::Serial(n));
    }
    None
}

/// The command that is a word, a number and another word.
#[tactic(auto, unfolding(crate::specs::Shapes::with_two))]
fn with_two(alloc: Global, word: &[u8], n: u32, last: &[u8]) -> Option<Command>
    ensures { result ≡ Shapes.with_two word.now n last.now }
{
    if is_word(word, b"replace") {
        return Some(Command::Replace {
            first: u64::from(n),
            last: u64::from(number(last)?),
            lines: Listed::new(alloc),
        });
    }
    if is_word(word, b"delete") {
        return Some(Command::Delete {
            first: u64::from(n),
            last: u64::from(number(last)?),
        });
    }
    if is_word(word, b"skew") {
        return Some(Command::Skew(n, factor(last)?));
    }
    if is_word(word, b"strip") {
        return Some(Command::Strip(n, i64::from(number(last)?)));
    }
    if is_word(word, b"expand") {
        return Some(Command::Expand(n, name(last)?));
    }
    if is_word(word, b"privatise") {
        return Some(Command::Privatise(n, name(last)?));
    }
    if is_word(word, b"reject") {
        return Some(Command::Reject(n, name(last)?));
    }
    with_word(alloc, word, n, last)
}

/// The command that is a word, a number and a word of the table.
#[tactic(auto, unfolding(crate::specs::Shapes::with_word))]
fn with_word(alloc: Global, word: &[u8], n: u32, last: &[u8]) -> Option<Command>
    ensures { result ≡ Shapes.with_word word.now n last.now }
{
    if is_word(word, b"peel") {
        return peel(n, last);
    }
    with_by(alloc, word, n, last)
}

/// The command that takes evidence, by its word and its number, where the last word is `by`.
#[tactic(auto, unfolding(crate::specs::Shapes::with_by))]
fn with_by(alloc: Global, word: &[u8], n: u32, last: &[u8]) -> Option<Command>
    ensures { result ≡ Shapes.with_by word.now n last.now }
{
    if !is_word(last, b"by") {
        return None;
    }
    if is_word(word, b"interchange") {
        return Some(Command::InterchangeBy(n, Listed::new(alloc)));
    }
    if is_word(word, b"reverse") {
        return Some(Command::ReverseBy(n, Listed::new(alloc)));
    }
    if is_word(word, b"parallel") {
        return Some(Command::ParallelBy(n, Listed::new(alloc)));
    }
    None
}

/// The loop of this number is peeled at this end.
#[tactic(auto, unfolding(crate::specs::Shapes::peeled))]
fn peel(n: u32, end: &[u8]) -> Option<Command>
    ensures { result ≡ Shapes.peeled n end.now }
{
    if is_word(end, b"first") {
        return Some(Command::Peel {
            statement: n,
            last: false,
        });
    }
    if is_word(end, b"last") {
        return Some(Command::Peel {
            statement: n,
            last: true,
        });
    }
    None
}
