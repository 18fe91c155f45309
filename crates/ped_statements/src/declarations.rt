//! Declarations (ANSI X3.9-1978, section 8): the names, bounds and values in them, each read at the start
//! of a text.

ghost use Rattle.std.specs.Prelude.{◌≡◌, ◌<◌, IfOk, length};
ghost use Rattle.ped_expressions.specs.ExpressionReading.{saturated};
ghost use Rattle.ped_statements.specs.Listing.{several};
ghost use Rattle.ped_statements.specs.StatementReading.{bound_of, declarator_of, value_of};
ghost use Rattle.ped_statements.specs.StatementViews.{bound_and_rest, bounds_and_rest, declarator_and_rest, declarators_and_rest, constant_and_rest, constants_and_rest};
ghost use Rattle.ped_expressions.specs.Views.{Gives};

use ped_base::Name;
use ped_expressions::{Failure, after, expr, name_of, split_word};
use ped_tree::{Bound, Declarator, Expr};
use std::alloc::Global;

/// The dimension at the front, and what follows it. Without a lower bound it is 1.
#[tactic(auto, unfolding(crate::specs::StatementReading::bound_of))]
fn bound(alloc: Global, text: &[u8]) -> Result<(Bound, &[u8]), Failure>
    ensures gives { Gives bound_and_rest result (bound_of saturated text.now) }
    ensures shorter { IfOk result (λ x. length x.1.now < length text.now) }
{
    let (first, rest) = expr(alloc, text)?;
    let Some(behind) = after(rest, b":") else {
        return Ok((
            Bound {
                lower: Expr::literal(1),
                upper: first,
            },
            rest,
        ));
    };
    let (upper, rest) = match expr(alloc, behind) {
        Ok(found) => found,
        Err(failure) => {
            drop(first);
            return Err(failure);
        }
    };
    Ok((
        Bound {
            lower: first,
            upper,
        },
        rest,
    ))
}

/// Dimensions with a comma between two, and what follows them.
#[tactic(auto, using(crate::proofs::Declared::bounds_step))]
fn bounds(alloc: Global, text: &[u8]) -> Result<(Vec<Bound>, &[u8]), Failure>
    ensures gives { Gives bounds_and_rest result (several (bound_of saturated) text.now) }
    ensures shorter { IfOk result (λ x. length x.1.now < length text.now) }
{
    let mut bounds = Vec::new(alloc);
    let mut left = text;
    loop {
        let (next, rest) = bound(alloc, left)?;
        bounds.push(next)?;
        match after(rest, b",") {
            Some(behind) => left = behind,
            None => return Ok((bounds, rest)),
        }
    }
}

/// The declared scalar or array at the front, and what follows it.
#[tactic(auto, unfolding(crate::specs::StatementReading::declarator_of, crate::specs::StatementReading::dimensions_of))]
fn declarator(alloc: Global, text: &[u8]) -> Result<(Declarator, &[u8]), Failure>
    ensures gives { Gives declarator_and_rest result (declarator_of saturated text.now) }
    ensures shorter { IfOk result (λ x. length x.1.now < length text.now) }
{
    let (word, rest) = split_word(text);
    let Some(name) = name_of(word) else {
        return Err(Failure::NoForm);
    };
    let Some(inside) = after(rest, b"(") else {
        let bounds = Vec::new(alloc);
        return Ok((Declarator { name, bounds }, rest));
    };
    let (bounds, rest) = bounds(alloc, inside)?;
    let Some(rest) = after(rest, b")") else {
        drop(bounds);
        return Err(Failure::NoForm);
    };
    Ok((Declarator { name, bounds }, rest))
}

/// Declared names with a comma between two, and what follows them.
#[tactic(auto, using(crate::proofs::Declared::declarators_step))]
pub fn declarators(alloc: Global, text: &[u8]) -> Result<(Vec<Declarator>, &[u8]), Failure>
    ensures { Gives declarators_and_rest result (several (declarator_of saturated) text.now) }
{
    let mut declarators = Vec::new(alloc);
    let mut left = text;
    loop {
        let (next, rest) = declarator(alloc, left)?;
        declarators.push(next)?;
        match after(rest, b",") {
            Some(behind) => left = behind,
            None => return Ok((declarators, rest)),
        }
    }
}

/// The named constant with its value at the front, and what follows it.
#[tactic(auto, unfolding(crate::specs::StatementReading::value_of))]
fn constant(alloc: Global, text: &[u8]) -> Result<((Name, Expr), &[u8]), Failure>
    ensures gives { Gives constant_and_rest result (value_of saturated text.now) }
    ensures shorter { IfOk result (λ x. length x.1.now < length text.now) }
{
    let (word, rest) = split_word(text);
    let Some(name) = name_of(word) else {
        return Err(Failure::NoForm);
    };
    let Some(behind) = after(rest, b"=") else {
        return Err(Failure::NoForm);
    };
    let (value, rest) = expr(alloc, behind)?;
    Ok(((name, value), rest))
}

/// Named constants with their values and a comma between two, and what follows them.
#[tactic(auto, using(crate::proofs::Declared::values_step))]
pub fn constants(alloc: Global, text: &[u8]) -> Result<(Vec<(Name, Expr)>, &[u8]), Failure>
    ensures { Gives constants_and_rest result (several (value_of saturated) text.now) }
{
    let mut constants = Vec::new(alloc);
    let mut left = text;
    loop {
        let (next, rest) = constant(alloc, left)?;
        constants.push(next)?;
        match after(rest, b",") {
            Some(behind) => left = behind,
            None => return Ok((constants, rest)),
        }
    }
}
