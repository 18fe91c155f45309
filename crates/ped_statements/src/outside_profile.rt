//! The test for FORTRAN 77 statements that the profile leaves out: by their first word, STOP with a code,
//! and IF with labels (ANSI X3.9-1978, sections 11.4 and 11.12).

ghost use Rattle.std.specs.Prelude.{◌≡◌, false, IfOk, map};
ghost use Rattle.std.specs.List.{list_any};
ghost use Rattle.ped_tree.specs.Grammar.OutsideProfile as OutsideProfile;
ghost use Rattle.ped_tree.specs.Grammar.Words as Words;
ghost use Rattle.ped_expressions.specs.Views.{lent};
ghost use Rattle.ped_statements.specs.Listing.{whole, several};
ghost use Rattle.ped_statements.specs.ProfileReading as Spec;
ghost use Rattle.ped_statements.specs.ProfileReading.{is_some, numeral_at, closing_at};

use crate::names::is_end;
use crate::simple_statements::characters;
use ped_base::NoMemory;
use ped_expressions::{Failure, after, begins_with_digit, split_digits};
use std::alloc::Global;

/// Whether the text is a statement that the profile leaves out.
#[tactic(auto, unfolding(crate::specs::ProfileReading::is_outside))]
pub fn is_outside(alloc: Global, text: &[u8]) -> Result<bool, NoMemory>
    ensures { IfOk result (λ b. b ≡ Spec.is_outside text.now) }
{
    if begins_with_word_outside(text) || branches_to_labels(text) {
        return Ok(true);
    }
    stops_with_code(alloc, text)
}

/// Whether one of the words that begin a statement outside the profile begins the text.
fn begins_with_word_outside(text: &[u8]) -> bool
    ensures { result ≡ list_any (OutsideProfile.begins_with text.now) OutsideProfile.words_outside }
{
    begins_with_any(
        text,
        &[
            b"REAL",
            b"DOUBLEPRECISION",
            b"COMPLEX",
            b"LOGICAL",
            b"CHARACTER",
            b"COMMON",
            b"EQUIVALENCE",
            b"DATA",
            b"ENTRY",
            b"EXTERNAL",
            b"INTRINSIC",
            b"FUNCTION",
            b"INTEGERFUNCTION",
            b"INTEGER*",
            b"SUBROUTINE",
            b"BLOCKDATA",
            b"IMPLICIT",
            b"CALL",
            b"RETURN",
            b"GOTO",
            b"ASSIGN",
            b"PAUSE",
            b"WRITE",
            b"READ",
            b"PRINT",
            b"FORMAT",
            b"OPEN",
            b"CLOSE",
            b"INQUIRE",
            b"REWIND",
            b"BACKSPACE",
            b"ENDFILE",
            b"DOWHILE",
        ],
    )
}

/// Whether one of the words begins the text.
fn begins_with_any(text: &[u8], words: &[&[u8]]) -> bool
    ensures { result ≡ list_any (OutsideProfile.begins_with text.now) (map (λ w. w.now) words.now) }
{
    for word in words {
        if begins_with(text, word) {
            return true;
        }
    }
    false
}

/// Whether the word begins the text.
#[tactic(auto, using(crate::proofs::ProfileSteps::pointwise_turned))]
fn begins_with(text: &[u8], word: &[u8]) -> bool
    ensures { result ≡ OutsideProfile.begins_with text.now word.now }
{
    text.starts_with(word)
}

/// Whether the text is STOP with digits or a character constant after it.
#[tactic(auto, unfolding(crate::specs::ProfileReading::stops_with_code))]
fn stops_with_code(alloc: Global, text: &[u8]) -> Result<bool, NoMemory>
    ensures { IfOk result (λ b. b ≡ Spec.stops_with_code text.now) }
{
    let Some(code) = after(text, b"STOP") else {
        return Ok(false);
    };
    if is_numeral(code) {
        return Ok(true);
    }
    is_constant(alloc, code)
}

/// Whether the text is one digit or more.
#[tactic(auto, using(crate::proofs::ProfileSteps::numeral_end, crate::proofs::ProfileSteps::no_numeral))]
fn is_numeral(text: &[u8]) -> bool
    ensures { result ≡ Words.is_numeral text.now }
{
    let (_, rest) = split_digits(text);
    begins_with_digit(text) && is_end(rest)
}

/// Whether the text is a character constant.
fn is_constant(alloc: Global, text: &[u8]) -> Result<bool, NoMemory>
    ensures { IfOk result (λ b. b ≡ Spec.is_constant text.now) }
{
    let Some(inside) = after(text, b"'") else {
        return Ok(false);
    };
    match characters(alloc, inside) {
        Ok((_, rest)) => Ok(is_end(rest)),
        Err(Failure::NoForm) => Ok(false),
        Err(Failure::OutOfMemory) => Err(NoMemory),
    }
}

/// Whether the text is an arithmetic IF: labels with commas between them follow the parenthesis that
/// closes its first one.
#[tactic(auto, unfolding(crate::specs::ProfileReading::branches_to_labels))]
fn branches_to_labels(text: &[u8]) -> bool
    ensures { result ≡ Spec.branches_to_labels text.now }
{
    let Some(inside) = after(text, b"IF(") else {
        return false;
    };
    match behind_parenthesis(inside) {
        Some(behind) => are_labels(behind),
        None => false,
    }
}

/// What follows the parenthesis that closes the one before the text, where none in a character constant counts.
fn behind_parenthesis(text: &[u8]) -> Option<&[u8]>
    ensures { lent result ≡ closing_at false 1 text.now }
{
    let mut quoted = false;
    let mut depth: usize = 1;
    for i in 0..text.len() {
        match text[i] {
            b'\'' => quoted = !quoted,
            _ if quoted => {}
            b'(' => depth += 1,
            b')' if depth == 1 => return Some(&text[i + 1..]),
            b')' => depth -= 1,
            _ => {}
        }
    }
    None
}

/// Whether the text is numerals with a comma between two.
#[tactic(auto, using(crate::proofs::ProfileSteps::labels_more, crate::proofs::ProfileSteps::labels_last, crate::proofs::ProfileSteps::labels_none))]
fn are_labels(text: &[u8]) -> bool
    ensures { result ≡ is_some (whole (several numeral_at text.now)) }
{
    let mut left = text;
    while begins_with_digit(left) {
        let (_, rest) = split_digits(left);
        match after(rest, b",") {
            Some(behind) => left = behind,
            None => return is_end(rest),
        }
    }
    false
}
