//! Statements that a logical IF may contain: assignments, PRINT, READ, STOP and CONTINUE
//! (ANSI X3.9-1978, sections 10.1, 11.11, 11.12 and 12.8).

ghost use Rattle.std.specs.Prelude.{◌≡◌, ◌<◌, false, IfOk, length};
ghost use Rattle.ped_tree.specs.Tree as Tree;
ghost use Rattle.ped_tree.specs.Views.{expr_tree, stmt_tree};
ghost use Rattle.ped_base.specs.Lists.{is_same_text};
ghost use Rattle.ped_expressions.specs.ExpressionReading.{saturated};
ghost use Rattle.ped_expressions.specs.Views.{Gives, expr_and_rest};
ghost use Rattle.ped_statements.specs.Listing.{each_behind_comma};
ghost use Rattle.ped_statements.specs.StatementReading as Spec;
ghost use Rattle.ped_statements.specs.StatementReading.{reference_of, quoted_at, print_item_of, assignment_of, worded_of, simple_of};
ghost use Rattle.ped_statements.specs.StatementViews.{value_and_rest, item_and_rest, item_trees, reference_trees, simple_tree};

use crate::names::is_end;
use ped_base::Bytes;
use ped_expressions::{Failure, after, begins_with_letter, expr, primary};
use ped_tree::{Expr, PrintItem, Stmt};
use std::alloc::Global;

/// The assignment, PRINT, READ or STOP that the text is; none for CONTINUE, which does nothing.
#[tactic(auto, unfolding(crate::specs::StatementReading::simple_of))]
pub fn simple(alloc: Global, text: &[u8]) -> Result<Option<Stmt>, Failure>
    ensures { Gives simple_tree result (simple_of saturated text.now) }
{
    match assignment(alloc, text) {
        Ok(statement) => Ok(Some(statement)),
        Err(Failure::OutOfMemory) => Err(Failure::OutOfMemory),
        Err(Failure::NoForm) => worded(alloc, text),
    }
}

/// The assignment that the whole text is.
#[tactic(auto, unfolding(crate::specs::StatementReading::assignment_of))]
fn assignment(alloc: Global, text: &[u8]) -> Result<Stmt, Failure>
    ensures { Gives stmt_tree result (assignment_of saturated text.now) }
{
    let (left, rest) = reference(alloc, text)?;
    let Some(behind) = after(rest, b"=") else {
        drop(left);
        return Err(Failure::NoForm);
    };
    let (right, rest) = match expr(alloc, behind) {
        Ok(found) => found,
        Err(failure) => {
            drop(left);
            return Err(failure);
        }
    };
    if is_end(rest) {
        Ok(Stmt::assignment(left, right))
    } else {
        drop(left);
        drop(right);
        Err(Failure::NoForm)
    }
}

/// The scalar or element at the front, and what follows it.
#[tactic(auto, unfolding(crate::specs::StatementReading::reference_of), using(crate::proofs::SimpleSteps::letter_first))]
fn reference(alloc: Global, text: &[u8]) -> Result<(Expr, &[u8]), Failure>
    ensures gives { Gives expr_and_rest result (reference_of saturated text.now) }
    ensures shorter { IfOk result (λ x. length x.1.now < length text.now) }
{
    if !begins_with_letter(text) {
        return Err(Failure::NoForm);
    }
    let (found, rest) = primary(alloc, text)?;
    if is_reference(&found) {
        Ok((found, rest))
    } else {
        drop(found);
        Err(Failure::NoForm)
    }
}

fn is_reference(e: &Expr) -> bool
    ensures { result ≡ Spec.is_reference (expr_tree e.now) }
{
    match e {
        Expr::Var(_) | Expr::Element(_, _) => true,
        _ => false,
    }
}

/// The PRINT, READ or STOP that the whole text is; none for CONTINUE.
#[tactic(auto, unfolding(crate::specs::StatementReading::worded_of))]
fn worded(alloc: Global, text: &[u8]) -> Result<Option<Stmt>, Failure>
    ensures { Gives simple_tree result (worded_of saturated text.now) }
{
    if is_word(text, b"STOP") {
        return Ok(Some(Stmt::stop()));
    }
    if is_word(text, b"CONTINUE") {
        return Ok(None);
    }
    if let Some(list) = after(text, b"PRINT*") {
        let items = items(alloc, list)?;
        return Ok(Some(Stmt::print(items)));
    }
    let Some(list) = after(text, b"READ*") else {
        return Err(Failure::NoForm);
    };
    let items = references(alloc, list)?;
    Ok(Some(Stmt::read(items)))
}

/// Whether the text is the word.
pub fn is_word(text: &[u8], word: &[u8]) -> bool
    ensures { result ≡ is_same_text text.now word.now }
{
    text == word
}

/// The items of a PRINT, each after a comma, that the whole text is.
#[tactic(auto, using(crate::proofs::SimpleSteps::items_step))]
fn items(alloc: Global, text: &[u8]) -> Result<Vec<PrintItem>, Failure>
    ensures { Gives item_trees result (each_behind_comma (print_item_of saturated) text.now) }
{
    let mut items = Vec::new(alloc);
    let mut left = text;
    while !is_end(left) {
        let Some(behind) = after(left, b",") else {
            return Err(Failure::NoForm);
        };
        let (next, rest) = item(alloc, behind)?;
        items.push(next)?;
        left = rest;
    }
    Ok(items)
}

/// The items of a READ, each after a comma, that the whole text is.
#[tactic(auto, using(crate::proofs::SimpleSteps::references_step))]
fn references(alloc: Global, text: &[u8]) -> Result<Vec<Expr>, Failure>
    ensures { Gives reference_trees result (each_behind_comma (reference_of saturated) text.now) }
{
    let mut references = Vec::new(alloc);
    let mut left = text;
    while !is_end(left) {
        let Some(behind) = after(left, b",") else {
            return Err(Failure::NoForm);
        };
        let (next, rest) = reference(alloc, behind)?;
        references.push(next)?;
        left = rest;
    }
    Ok(references)
}

/// The item of a PRINT at the front, and what follows it.
#[tactic(auto, unfolding(crate::specs::StatementReading::print_item_of))]
fn item(alloc: Global, text: &[u8]) -> Result<(PrintItem, &[u8]), Failure>
    ensures gives { Gives item_and_rest result (print_item_of saturated text.now) }
    ensures shorter { IfOk result (λ x. length x.1.now < length text.now) }
{
    match after(text, b"'") {
        None => {
            let (value, rest) = expr(alloc, text)?;
            Ok((PrintItem::value(value), rest))
        }
        Some(inside) => {
            let (constant, rest) = characters(alloc, inside)?;
            Ok((PrintItem::text(constant), rest))
        }
    }
}

/// The characters of the constant whose opening apostrophe is before the text, and what follows its
/// closing one. Two apostrophes in it stand for one.
pub fn characters(alloc: Global, text: &[u8]) -> Result<(Bytes, &[u8]), Failure>
    ensures gives { Gives value_and_rest result (quoted_at false text.now) }
    ensures shorter { IfOk result (λ x. length x.1.now < length text.now) }
{
    let mut characters = Bytes::new(alloc);
    let mut left = text;
    loop {
        if let Some(behind) = after(left, b"''") {
            characters.push(b'\'')?;
            left = behind;
            continue;
        }
        if let Some(rest) = after(left, b"'") {
            return Ok((characters, rest));
        }
        let Some((first, behind)) = left.split_first() else {
            return Err(Failure::NoForm);
        };
        characters.push(*first)?;
        left = behind;
    }
}
