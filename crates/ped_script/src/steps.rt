//! The steps of a certificate, by the words of a line of evidence.

ghost use Rattle.std.specs.Prelude.{◌≡◌, List, Some, None, if◌then◌else◌, IfOk};
ghost use Rattle.ped_script.specs.Words.{words_of};
ghost use Rattle.ped_certificates.specs.declared.systems.Step.{Step};
ghost use Rattle.ped_script.specs.declared.steps.StepWord.TheVariants as word;
ghost use Rattle.ped_script.specs.EvidenceLines as Spec;

use crate::words::{cut_at, first_word, number, small_factor};
use ped_base::{Listed, NoMemory};
use ped_certificates::{Part, Parts, Step};
use std::alloc::Global;

/// The most steps that a line of evidence has.
const MOST_STEPS: usize = 500;

/// What a word says of a step.
#[derive(Clone, Copy, Drop)]
pub enum StepWord {
    /// `r:m`: a part of a sum.
    Part(Part),
    /// `/d`: the end of the parts of a cut, with its divisor.
    Cut(u32),
    /// `%d`: the end of the parts of an equation, with the number that divides its coefficients.
    Gcd(u32),
    /// `u?k`: a division by an unknown at a value.
    Split(u32, i32),
}

/// The steps that the words of a line write: 1 to 500, each whole.
pub fn steps(alloc: Global, line: &[u8]) -> Result<Option<Listed<Step>>, NoMemory>
    ensures { IfOk result (λ steps. steps ≡ Spec.steps_of (words_of line.now)) }
{
    let mut steps = Listed::new(alloc);
    let mut parts = Parts::new(alloc);
    let mut left = line;
    while let Some((word, rest)) = first_word(left) {
        let Some(said) = step_word(word) else {
            return Ok(None);
        };
        if !take_word(alloc, &mut steps, &mut parts, said)? {
            return Ok(None);
        }
        left = rest;
    }
    if parts.is_empty() && !steps.is_empty() && steps.len() <= MOST_STEPS {
        Ok(Some(steps))
    } else {
        Ok(None)
    }
}

/// Takes one more word of steps, and says whether it may stand there. Where it may not, nothing changes.
fn take_word(
    alloc: Global,
    steps: &mut Listed<Step>,
    parts: &mut Parts,
    said: StepWord,
) -> Result<bool, NoMemory>
    ensures { IfOk result (λ taken. Spec.after_word (record { steps = steps.old; parts = parts.old }) said
        ≡ (if taken then Some (record { steps = steps.new; parts = parts.new }) else None)) }
{
    match said {
        StepWord::Part(part) => return add_part(parts, part),
        StepWord::Cut(divisor) => return end_cut(alloc, steps, parts, divisor),
        StepWord::Gcd(divisor) => return end_equation(alloc, steps, parts, divisor),
        StepWord::Split(unknown, most) => return split(steps, parts, unknown, most),
    }
}

/// Adds a part, where there may be one more.
fn add_part(parts: &mut Parts, part: Part) -> Result<bool, NoMemory>
    ensures { IfOk result (λ taken. (steps : List Step) → Spec.after_word (record { steps = steps; parts = parts.old }) (word.Part part)
        ≡ (if taken then Some (record { steps = steps; parts = parts.new }) else None)) }
{
    if parts.is_full() {
        return Ok(false);
    }
    parts.push(part)?;
    Ok(true)
}

/// Adds the cut of the parts so far, where there are some.
fn end_cut(
    alloc: Global,
    steps: &mut Listed<Step>,
    parts: &mut Parts,
    divisor: u32,
) -> Result<bool, NoMemory>
    ensures { IfOk result (λ taken. Spec.after_word (record { steps = steps.old; parts = parts.old }) (word.Cut divisor)
        ≡ (if taken then Some (record { steps = steps.new; parts = parts.new }) else None)) }
{
    if parts.is_empty() {
        return Ok(false);
    }
    let parts = parts.take(alloc);
    steps.push(Step::Cut { parts, divisor })?;
    Ok(true)
}

/// Adds the equation of the parts so far, where there are some.
fn end_equation(
    alloc: Global,
    steps: &mut Listed<Step>,
    parts: &mut Parts,
    divisor: u32,
) -> Result<bool, NoMemory>
    ensures { IfOk result (λ taken. Spec.after_word (record { steps = steps.old; parts = parts.old }) (word.Gcd divisor)
        ≡ (if taken then Some (record { steps = steps.new; parts = parts.new }) else None)) }
{
    if parts.is_empty() {
        return Ok(false);
    }
    let parts = parts.take(alloc);
    steps.push(Step::Gcd { parts, divisor })?;
    Ok(true)
}

/// Adds a division by an unknown, where no part comes before it.
fn split(steps: &mut Listed<Step>, parts: &Parts, unknown: u32, most: i32) -> Result<bool, NoMemory>
    ensures { IfOk result (λ taken. Spec.after_word (record { steps = steps.old; parts = parts.now }) (word.Split unknown most)
        ≡ (if taken then Some (record { steps = steps.new; parts = parts.now }) else None)) }
{
    if !parts.is_empty() {
        return Ok(false);
    }
    steps.push(Step::Split { unknown, most })?;
    Ok(true)
}

/// What a word says of a step; none where it says nothing of one.
fn step_word(word: &[u8]) -> Option<StepWord>
    ensures { result ≡ Spec.step_word word.now }
{
    match word {
        [] => None,
        [b'/', digits @ ..] => Some(StepWord::Cut(divisor(digits)?)),
        [b'%', digits @ ..] => Some(StepWord::Gcd(divisor(digits)?)),
        _ => part_or_split(word),
    }
}

/// A part of a sum, or a division by an unknown.
fn part_or_split(word: &[u8]) -> Option<StepWord>
    ensures { result ≡ Spec.part_or_split word.now }
{
    if let Some((row, factor)) = pair_at(b':', word) {
        return Some(StepWord::Part(Part { row, factor }));
    }
    let (unknown, most) = pair_at(b'?', word)?;
    Some(StepWord::Split(unknown, most))
}

/// A divisor, which is at least 1.
fn divisor(word: &[u8]) -> Option<u32>
    ensures { result ≡ Spec.divisor_of word.now }
{
    let divisor = number(word)?;
    if divisor >= 1 { Some(divisor) } else { None }
}

/// The number and the factor on the two sides of a character.
fn pair_at(c: u8, word: &[u8]) -> Option<(u32, i32)>
    ensures { result ≡ Spec.pair_at c word.now }
{
    let (before, behind) = cut_at(c, word)?;
    Some((number(before)?, small_factor(behind)?))
}
