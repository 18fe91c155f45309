//! The lines of evidence, and what stands in them before the steps: two places and a pattern.

ghost use Rattle.std.specs.Prelude.{◌≡◌, ◌<◌, length, Some, None, MatchOption, IfSome, IfOk};
ghost use Rattle.ped_script.specs.Words.{words_of};
ghost use Rattle.ped_script.specs.EvidenceLines as Spec;
ghost use Rattle.ped_script.specs.Shapes as Shapes;

use crate::steps::steps;
use crate::words::{cut_at, first_word, has_word, number};
use ped_base::{Listed, NoMemory};
use ped_certificates::{Claim, EvidenceLine, Position, Sign};
use std::alloc::Global;

/// What a line of the text of evidence is.
pub fn evidence_line(alloc: Global, line: &[u8]) -> Result<EvidenceLine, NoMemory>
    ensures { IfOk result (λ said. said ≡ Spec.evidence_line line.now) }
{
    if !has_word(line) {
        return Ok(EvidenceLine::Empty);
    }
    match claim(alloc, line)? {
        Some(claim) => Ok(EvidenceLine::Claim(claim)),
        None => Ok(EvidenceLine::Malformed),
    }
}

/// The claim of a line, where its words are one: two places, a pattern, and steps.
fn claim(alloc: Global, line: &[u8]) -> Result<Option<Claim>, NoMemory>
    ensures { IfOk result (λ claim. claim ≡ Spec.claim_of (words_of line.now)) }
{
    let Some((source, rest)) = first_place(line) else {
        return Ok(None);
    };
    let Some((sink, rest)) = first_place(rest) else {
        return Ok(None);
    };
    let Some((word, rest)) = first_word(rest) else {
        return Ok(None);
    };
    let Some(pattern) = pattern(alloc, word)? else {
        return Ok(None);
    };
    let Some(steps) = steps(alloc, rest)? else {
        return Ok(None);
    };
    Ok(Some(Claim {
        source,
        sink,
        pattern,
        steps,
    }))
}

/// The place that the first word of a line writes, and what follows it.
pub fn first_place(line: &[u8]) -> Option<(Position, &[u8])>
    ensures { MatchOption result (Spec.first_place (words_of line.now) ≡ None)
        (λ x. Spec.first_place (words_of line.now) ≡ Some (x.0, words_of x.1.now)) }
{
    let (word, rest) = first_word(line)?;
    Some((place(word)?, rest))
}

/// The place of a reference: two numbers with a point between them.
fn place(word: &[u8]) -> Option<Position>
    ensures { result ≡ Spec.place_of word.now }
{
    let (statement, number_there) = cut_at(b'.', word)?;
    Some(Position {
        statement: number(statement)?,
        number: number(number_there)?,
    })
}

/// A pattern: signs in brackets.
pub fn pattern(alloc: Global, word: &[u8]) -> Result<Option<Listed<Sign>>, NoMemory>
    ensures { IfOk result (λ pattern. pattern ≡ Spec.pattern_of word.now) }
{
    match word {
        [b'(', rest @ ..] => signs(alloc, rest),
        _ => Ok(None),
    }
}

/// Signs with a comma between two, and a bracket at their end.
#[tactic(auto, using(crate::proofs::Signs::next_signs, crate::proofs::Signs::last_sign, crate::proofs::Signs::no_signs))]
fn signs(alloc: Global, text: &[u8]) -> Result<Option<Listed<Sign>>, NoMemory>
    ensures { IfOk result (λ signs. signs ≡ Spec.signs_of text.now) }
{
    let mut signs = Listed::new(alloc);
    let mut left = text;
    while let Some((sign, next, rest)) = first_sign(left) {
        signs.push(sign)?;
        if next != b',' {
            return Ok(if next == b')' && rest.is_empty() {
                Some(signs)
            } else {
                None
            });
        }
        left = rest;
    }
    Ok(None)
}

/// The sign at the front of a text, the character behind it, and what follows both.
fn first_sign(text: &[u8]) -> Option<(Sign, u8, &[u8])>
    ensures sign { MatchOption result (Shapes.first_sign text.now ≡ None)
        (λ x. Shapes.first_sign text.now ≡ Some (x.0, x.1, x.2.now)) }
    ensures shorter { IfSome result (λ x. length x.2.now < length text.now) }
{
    match text {
        [first, second, rest @ ..] => Some((sign(*first)?, *second, rest)),
        _ => None,
    }
}

/// `<`, `=`, `>` or `*`.
fn sign(c: u8) -> Option<Sign>
    ensures { result ≡ Spec.sign_of c }
{
    match c {
        b'<' => Some(Sign::Before),
        b'=' => Some(Sign::Same),
        b'>' => Some(Sign::After),
        b'*' => Some(Sign::Any),
        _ => None,
    }
}
