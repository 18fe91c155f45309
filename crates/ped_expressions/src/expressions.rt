//! Arithmetic expressions (ANSI X3.9-1978, section 6.1), read by recursive descent. Only the length of a statement
//! limits how deep they nest.

ghost use Rattle.std.specs.Prelude.{◌≡◌, ◌<◌, ◌≤◌, ◌+◌, IfOk, IfSome, IsTrue, Some, None, length, map, option_map};
ghost use Rattle.ped_base.specs.Letters as Letters;
ghost use Rattle.ped_tree.specs.Tree as Tree;
ghost use Rattle.ped_tree.specs.Views.{expr_tree, pack_exprs};
ghost use Rattle.ped_tree.specs.Grammar.ExpressionForms.{ReadsExpr, ReadsReference};
ghost use Rattle.ped_tree.specs.Grammar.Literals as Literals;
ghost use Rattle.ped_expressions.specs.Readings.{Says};
ghost use Rattle.ped_expressions.specs.Scanning as Scanning;
ghost use Rattle.ped_expressions.specs.ExpressionReading as Spec;
ghost use Rattle.ped_expressions.specs.ExpressionReading.{saturated, expr_of, sums_of, term_of, products_of, factor_of, primary_of, named_of, exprs_of, whole_expr_of};
ghost use Rattle.ped_expressions.specs.Views.{Gives, expr_and_rest, exprs_and_rest};

use crate::literals::has_large_literal;
use crate::operators::{added, scaled, signed, take_adding, take_scaling, take_sign};
use crate::readings::{Failure, Reading};
use crate::scanning::{
    after, begins_with_digit, begins_with_letter, intrinsic_of, literal_value, name_of,
    split_digits, split_word,
};
use ped_base::{Name, NoMemory};
use ped_tree::{Expr, Intrinsic};
use std::alloc::Global;

/// What the text is read as, as an expression.
pub fn read_expression(alloc: Global, text: &[u8]) -> Result<Reading<Expr>, NoMemory>
    ensures { IfOk result (Says (ReadsExpr text.now) Literals.has_large_literal expr_tree) }
{
    match whole(alloc, text) {
        Ok(e) if has_large_literal(&e) => {
            drop(e);
            Ok(Reading::TooLarge)
        }
        Ok(e) => Ok(Reading::Tree(e)),
        Err(Failure::NoForm) => Ok(Reading::NoForm),
        Err(Failure::OutOfMemory) => Err(NoMemory),
    }
}

/// What the text is read as, as a scalar or an element.
pub fn read_reference(alloc: Global, text: &[u8]) -> Result<Reading<Expr>, NoMemory>
    ensures { IfOk result (Says (ReadsReference text.now) Literals.has_large_literal expr_tree) }
{
    if !begins_with_letter(text) {
        return Ok(Reading::NoForm);
    }
    match whole(alloc, text) {
        Ok(e) if !is_reference(&e) => {
            drop(e);
            Ok(Reading::NoForm)
        }
        Ok(e) if has_large_literal(&e) => {
            drop(e);
            Ok(Reading::TooLarge)
        }
        Ok(e) => Ok(Reading::Tree(e)),
        Err(Failure::NoForm) => Ok(Reading::NoForm),
        Err(Failure::OutOfMemory) => Err(NoMemory),
    }
}

fn is_reference(e: &Expr) -> bool
    ensures { result ≡ Spec.is_reference (expr_tree e.now) }
{
    match e {
        Expr::Var(_) | Expr::Element(_, _) => true,
        _ => false,
    }
}

/// The expression that is the whole text.
#[tactic(auto, unfolding(crate::specs::ExpressionReading::whole_expr_of))]
fn whole(alloc: Global, text: &[u8]) -> Result<Expr, Failure>
    ensures { Gives expr_tree result (whole_expr_of saturated text.now) }
{
    let (e, rest) = expr(alloc, text)?;
    if rest.is_empty() {
        Ok(e)
    } else {
        drop(e);
        Err(Failure::NoForm)
    }
}

/// The expression at the front, and what follows it.
#[cycle(expr)]
#[tactic(auto, using(crate::proofs::Equations::expr_step))]
pub fn expr(alloc: Global, text: &[u8]) -> Result<(Expr, &[u8]), Failure>
    ensures gives { Gives expr_and_rest result (expr_of saturated text.now) }
    ensures shorter { IfOk result (λ x. length x.1.now < length text.now) }
{
    let (sign, rest) = take_sign(text);
    let (first, rest) = term(alloc, rest)?;
    let first = signed(alloc, sign, first)?;
    sums(alloc, first, rest)
}

/// The expression that begins with `first`, as far as terms are added to it.
#[cycle(expr)]
#[tactic(auto, using(crate::proofs::Equations::sums_step))]
fn sums(alloc: Global, first: Expr, text: &[u8]) -> Result<(Expr, &[u8]), Failure>
    ensures gives { Gives expr_and_rest result (sums_of saturated (expr_tree first) text.now) }
    ensures shorter { IfOk result (λ x. length x.1.now ≤ length text.now) }
{
    let mut sum = first;
    let mut rest = text;
    while let Some((operator, behind)) = take_adding(rest) {
        let (next, behind) = match term(alloc, behind) {
            Ok(found) => found,
            Err(failure) => {
                drop(sum);
                return Err(failure);
            }
        };
        sum = added(alloc, operator, sum, next)?;
        rest = behind;
    }
    Ok((sum, rest))
}

#[cycle(expr)]
#[tactic(auto, using(crate::proofs::Equations::term_step))]
fn term(alloc: Global, text: &[u8]) -> Result<(Expr, &[u8]), Failure>
    ensures gives { Gives expr_and_rest result (term_of saturated text.now) }
    ensures shorter { IfOk result (λ x. length x.1.now < length text.now) }
{
    let (first, rest) = factor(alloc, text)?;
    products(alloc, first, rest)
}

/// The term that begins with `first`, as far as factors follow it.
#[cycle(expr)]
#[tactic(auto, using(crate::proofs::Equations::products_step))]
fn products(alloc: Global, first: Expr, text: &[u8]) -> Result<(Expr, &[u8]), Failure>
    ensures gives { Gives expr_and_rest result (products_of saturated (expr_tree first) text.now) }
    ensures shorter { IfOk result (λ x. length x.1.now ≤ length text.now) }
{
    let mut product = first;
    let mut rest = text;
    while let Some((operator, behind)) = take_scaling(rest) {
        let (next, behind) = match factor(alloc, behind) {
            Ok(found) => found,
            Err(failure) => {
                drop(product);
                return Err(failure);
            }
        };
        product = scaled(alloc, operator, product, next)?;
        rest = behind;
    }
    Ok((product, rest))
}

#[cycle(expr)]
#[tactic(auto, using(crate::proofs::Equations::factor_step))]
fn factor(alloc: Global, text: &[u8]) -> Result<(Expr, &[u8]), Failure>
    ensures gives { Gives expr_and_rest result (factor_of saturated text.now) }
    ensures shorter { IfOk result (λ x. length x.1.now < length text.now) }
{
    let (base, rest) = primary(alloc, text)?;
    match after(rest, b"**") {
        None => Ok((base, rest)),
        Some(behind) => {
            let (exponent, rest) = match factor(alloc, behind) {
                Ok(found) => found,
                Err(failure) => {
                    drop(base);
                    return Err(failure);
                }
            };
            Ok((Expr::power(alloc, base, exponent)?, rest))
        }
    }
}

/// The primary at the front, and what follows it.
#[cycle(expr)]
#[tactic(auto, using(crate::proofs::Equations::primary_step))]
pub fn primary(alloc: Global, text: &[u8]) -> Result<(Expr, &[u8]), Failure>
    ensures gives { Gives expr_and_rest result (primary_of saturated text.now) }
    ensures shorter { IfOk result (λ x. length x.1.now < length text.now) }
{
    if let Some(inside) = after(text, b"(") {
        let (inner, rest) = expr(alloc, inside)?;
        return match after(rest, b")") {
            Some(rest) => Ok((inner, rest)),
            None => {
                drop(inner);
                Err(Failure::NoForm)
            }
        };
    }
    if begins_with_digit(text) {
        return Ok(literal(text));
    }
    let (word, rest) = split_word(text);
    named(alloc, word, rest)
}

/// The literal at the front, one that is too large as the greatest integer of 32 bits.
#[tactic(auto, using(crate::proofs::Basics::front_all, crate::proofs::Basics::behind_digits))]
fn literal(text: &[u8]) -> (Expr, &[u8])
    requires { IsTrue (Scanning.first_is Letters.is_digit text.now) }
    ensures is { Some (expr_and_rest result) ≡ Spec.literal_at saturated text.now }
    ensures shorter { length result.1.now < length text.now }
{
    let (digits, rest) = split_digits(text);
    (Expr::literal(literal_value(digits)), rest)
}

/// The scalar, element or function of that name, by what follows it.
#[cycle(expr)]
#[tactic(auto, using(crate::proofs::Equations::named_step))]
fn named<'a>(alloc: Global, word: &[u8], text: &'a [u8]) -> Result<(Expr, &'a [u8]), Failure>
    ensures gives { Gives expr_and_rest result (named_of saturated word.now text.now) }
    ensures shorter { IfOk result (λ x. length x.1.now < length word.now + length text.now) }
{
    let Some(name) = name_of(word) else {
        return Err(Failure::NoForm);
    };
    let Some(inside) = after(text, b"(") else {
        return Ok((Expr::scalar(name), text));
    };
    let (arguments, rest) = exprs(alloc, inside)?;
    let Some(rest) = after(rest, b")") else {
        return Err(Failure::NoForm);
    };
    match applied(name, arguments) {
        Some(e) => Ok((e, rest)),
        None => Err(Failure::NoForm),
    }
}

/// The intrinsic function of these arguments, or the element with these subscripts.
fn applied(name: Name, arguments: Vec<Expr>) -> Option<Expr>
    ensures { option_map expr_tree result ≡ Spec.applied name (pack_exprs (map expr_tree arguments.items)) }
{
    match intrinsic_of(name.as_bytes()) {
        None => Some(Expr::element(name, arguments)),
        Some(function) => {
            if takes(function, arguments.len()) {
                Some(Expr::call(function, arguments))
            } else {
                None
            }
        }
    }
}

/// Whether the function takes this many arguments.
fn takes(function: Intrinsic, count: usize) -> bool
    ensures { result ≡ Spec.takes function count }
{
    match function {
        Intrinsic::Mod => count == 2,
        Intrinsic::Abs => count == 1,
        Intrinsic::Max | Intrinsic::Min => count >= 2,
    }
}

/// Expressions with a comma between two.
#[cycle(expr)]
#[tactic(auto, using(crate::proofs::Equations::exprs_step))]
fn exprs(alloc: Global, text: &[u8]) -> Result<(Vec<Expr>, &[u8]), Failure>
    ensures gives { Gives exprs_and_rest result (exprs_of saturated text.now) }
    ensures shorter { IfOk result (λ x. length x.1.now < length text.now) }
{
    let mut exprs = Vec::new(alloc);
    let mut left = text;
    loop {
        let (next, rest) = expr(alloc, left)?;
        exprs.push(next)?;
        match after(rest, b",") {
            Some(behind) => left = behind,
            None => return Ok((exprs, rest)),
        }
    }
}
