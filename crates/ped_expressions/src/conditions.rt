//! Conditions (ANSI X3.9-1978, sections 6.3 and 6.4), read by recursive descent. A parenthesis opens an expression of a
//! relation where one can be read, and otherwise a condition.

ghost use Rattle.std.specs.Prelude.{◌<◌, ◌≤◌, IfOk, length};
ghost use Rattle.ped_tree.specs.Views.{cond_tree};
ghost use Rattle.ped_tree.specs.Grammar.ConditionForms.{ReadsCond};
ghost use Rattle.ped_tree.specs.Grammar.Literals as Literals;
ghost use Rattle.ped_expressions.specs.Readings.{Says};
ghost use Rattle.ped_expressions.specs.ExpressionReading.{saturated};
ghost use Rattle.ped_expressions.specs.ConditionReading.{relation_of, cond_of, ors_of, logical_term_of, ands_of, logical_factor_of, logical_primary_of, whole_cond_of};
ghost use Rattle.ped_expressions.specs.Views.{Gives, cond_and_rest};

use crate::expressions::expr;
use crate::literals::cond_has_large_literal;
use crate::operators::take_relation;
use crate::readings::{Failure, Reading};
use crate::scanning::after;
use ped_base::NoMemory;
use ped_tree::Cond;
use std::alloc::Global;

/// What the text is read as, as a condition.
pub fn read_condition(alloc: Global, text: &[u8]) -> Result<Reading<Cond>, NoMemory>
    ensures { IfOk result (Says (ReadsCond text.now) Literals.cond_has_large_literal cond_tree) }
{
    match whole(alloc, text) {
        Ok(c) if cond_has_large_literal(&c) => {
            drop(c);
            Ok(Reading::TooLarge)
        }
        Ok(c) => Ok(Reading::Tree(c)),
        Err(Failure::NoForm) => Ok(Reading::NoForm),
        Err(Failure::OutOfMemory) => Err(NoMemory),
    }
}

/// The condition that is the whole text.
#[tactic(auto, unfolding(crate::specs::ConditionReading::whole_cond_of))]
fn whole(alloc: Global, text: &[u8]) -> Result<Cond, Failure>
    ensures { Gives cond_tree result (whole_cond_of saturated text.now) }
{
    let (c, rest) = cond(alloc, text)?;
    if rest.is_empty() {
        Ok(c)
    } else {
        drop(c);
        Err(Failure::NoForm)
    }
}

/// The condition at the front, and what follows it.
#[cycle(cond)]
#[tactic(auto, using(crate::proofs::CondEquations::cond_step))]
pub fn cond(alloc: Global, text: &[u8]) -> Result<(Cond, &[u8]), Failure>
    ensures gives { Gives cond_and_rest result (cond_of saturated text.now) }
    ensures shorter { IfOk result (λ x. length x.1.now < length text.now) }
{
    let (first, rest) = logical_term(alloc, text)?;
    disjunction(alloc, first, rest)
}

/// The condition that begins with `first`, as far as `.OR.` follows.
#[cycle(cond)]
#[tactic(auto, using(crate::proofs::CondEquations::ors_step))]
fn disjunction(alloc: Global, first: Cond, text: &[u8]) -> Result<(Cond, &[u8]), Failure>
    ensures gives { Gives cond_and_rest result (ors_of saturated (cond_tree first) text.now) }
    ensures shorter { IfOk result (λ x. length x.1.now ≤ length text.now) }
{
    let mut whole = first;
    let mut rest = text;
    while let Some(behind) = after(rest, b".OR.") {
        let (next, behind) = match logical_term(alloc, behind) {
            Ok(found) => found,
            Err(failure) => {
                drop(whole);
                return Err(failure);
            }
        };
        whole = Cond::disjunction(alloc, whole, next)?;
        rest = behind;
    }
    Ok((whole, rest))
}

#[cycle(cond)]
#[tactic(auto, using(crate::proofs::CondEquations::logical_term_step))]
fn logical_term(alloc: Global, text: &[u8]) -> Result<(Cond, &[u8]), Failure>
    ensures gives { Gives cond_and_rest result (logical_term_of saturated text.now) }
    ensures shorter { IfOk result (λ x. length x.1.now < length text.now) }
{
    let (first, rest) = logical_factor(alloc, text)?;
    conjunction(alloc, first, rest)
}

/// The logical term that begins with `first`, as far as `.AND.` follows.
#[cycle(cond)]
#[tactic(auto, using(crate::proofs::CondEquations::ands_step))]
fn conjunction(alloc: Global, first: Cond, text: &[u8]) -> Result<(Cond, &[u8]), Failure>
    ensures gives { Gives cond_and_rest result (ands_of saturated (cond_tree first) text.now) }
    ensures shorter { IfOk result (λ x. length x.1.now ≤ length text.now) }
{
    let mut whole = first;
    let mut rest = text;
    while let Some(behind) = after(rest, b".AND.") {
        let (next, behind) = match logical_factor(alloc, behind) {
            Ok(found) => found,
            Err(failure) => {
                drop(whole);
                return Err(failure);
            }
        };
        whole = Cond::conjunction(alloc, whole, next)?;
        rest = behind;
    }
    Ok((whole, rest))
}

#[cycle(cond)]
#[tactic(auto, using(crate::proofs::CondEquations::logical_factor_step))]
fn logical_factor(alloc: Global, text: &[u8]) -> Result<(Cond, &[u8]), Failure>
    ensures gives { Gives cond_and_rest result (logical_factor_of saturated text.now) }
    ensures shorter { IfOk result (λ x. length x.1.now < length text.now) }
{
    match after(text, b".NOT.") {
        None => logical_primary(alloc, text),
        Some(behind) => {
            let (denied, rest) = logical_primary(alloc, behind)?;
            Ok((Cond::negation(alloc, denied)?, rest))
        }
    }
}

#[cycle(cond)]
#[tactic(auto, using(crate::proofs::CondEquations::logical_primary_step))]
fn logical_primary(alloc: Global, text: &[u8]) -> Result<(Cond, &[u8]), Failure>
    ensures gives { Gives cond_and_rest result (logical_primary_of saturated text.now) }
    ensures shorter { IfOk result (λ x. length x.1.now < length text.now) }
{
    match relation(alloc, text) {
        Ok(found) => return Ok(found),
        Err(Failure::OutOfMemory) => return Err(Failure::OutOfMemory),
        Err(Failure::NoForm) => {}
    }
    let Some(inside) = after(text, b"(") else {
        return Err(Failure::NoForm);
    };
    let (inner, rest) = cond(alloc, inside)?;
    match after(rest, b")") {
        Some(rest) => Ok((inner, rest)),
        None => {
            drop(inner);
            Err(Failure::NoForm)
        }
    }
}

/// The relation of two expressions at the front, and what follows it.
#[tactic(auto, unfolding(crate::specs::ConditionReading::relation_of))]
fn relation(alloc: Global, text: &[u8]) -> Result<(Cond, &[u8]), Failure>
    ensures gives { Gives cond_and_rest result (relation_of saturated text.now) }
    ensures shorter { IfOk result (λ x. length x.1.now < length text.now) }
{
    let (left, rest) = expr(alloc, text)?;
    let Some((operator, rest)) = take_relation(rest) else {
        drop(left);
        return Err(Failure::NoForm);
    };
    let (right, rest) = match expr(alloc, rest) {
        Ok(found) => found,
        Err(failure) => {
            drop(left);
            return Err(failure);
        }
    };
    Ok((Cond::relation(operator, left, right), rest))
}
