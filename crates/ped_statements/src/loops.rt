//! DO statements by themselves (ANSI X3.9-1978, section 11.10).

ghost use Rattle.std.specs.Prelude.{◌≡◌, ◌<◌, ◌≤◌, IfOk, IsTrue, length, Some, None, if◌then◌else◌};
ghost use Rattle.std.specs.List.{list_all};
ghost use Rattle.ped_base.specs.Letters.{is_digit};
ghost use Rattle.ped_tree.specs.Grammar.Items as Items;
ghost use Rattle.ped_tree.specs.Grammar.StatementForms as Forms;
ghost use Rattle.ped_tree.specs.Grammar.Words.{numeral_value};
ghost use Rattle.ped_tree.specs.Grammar.ItemViews.{item_of};
ghost use Rattle.ped_expressions.specs.ExpressionReading.{saturated};
ghost use Rattle.ped_expressions.specs.Views.{Gives, expr_and_rest};
ghost use Rattle.ped_statements.specs.StatementReading as Spec;
ghost use Rattle.ped_statements.specs.Listing.{whole};
ghost use Rattle.ped_statements.specs.StatementReading.{step_of, control_of, do_of};
ghost use Rattle.ped_statements.specs.StatementViews.{head_of, control_and_rest};

use crate::names::{at_end, is_end};
use ped_base::Name;
use ped_expressions::{Failure, after, expr, literal_value, name_of, split_digits, split_word};
use ped_tree::Expr;
use ped_tree::grammar::{DoStatement, Item};
use std::alloc::Global;

/// The control of a DO: what follows that word and its label.
#[derive(Drop)]
struct Control {
    /// The DO variable.
    variable: Name,
    /// The initial value.
    first: Expr,
    /// The limit.
    last: Expr,
    /// The increment, a literal 1 where none is written.
    step: Expr,
}

/// What a DO or a PARALLEL DO says, by what follows that word. A comma is read after a label alone.
#[tactic(auto, using(ped_expressions::proofs::Basics::front_all), unfolding(crate::specs::StatementReading::do_of))]
pub fn do_statement(alloc: Global, parallel: bool, text: &[u8]) -> Result<Item, Failure>
    ensures { Gives item_of result (do_of saturated parallel text.now) }
{
    let (digits, rest) = split_digits(text);
    if is_end(digits) {
        let control = whole_control(alloc, parallel, text)?;
        return Ok(begins_do(None, parallel, control));
    }
    let Some(label) = label_of(digits) else {
        return Err(Failure::NoForm);
    };
    let control = whole_control(alloc, parallel, without_comma(rest))?;
    Ok(begins_do(Some(label), parallel, control))
}

/// The number of a label, where the digits are one: one to five of them, not all zero.
#[tactic(auto, using(crate::proofs::Labels::label_is))]
fn label_of(digits: &[u8]) -> Option<u32>
    requires { IsTrue (list_all is_digit digits.now) }
    ensures { result ≡ (if Forms.is_label digits.now then Some (numeral_value digits.now) else None) }
{
    if digits.is_empty() || digits.len() > 5 {
        return None;
    }
    let label = literal_value(digits);
    if label == 0 { None } else { Some(label) }
}

/// The DO statement with that label, if any, and that control.
fn begins_do(label: Option<u32>, parallel: bool, control: Control) -> Item
    ensures { item_of result ≡ Items.begins_do label (head_of parallel control) }
{
    Item::Do(DoStatement {
        label,
        variable: control.variable,
        first: control.first,
        last: control.last,
        step: control.step,
        parallel,
    })
}

/// The control of a DO that the whole text is.
fn whole_control(alloc: Global, parallel: bool, text: &[u8]) -> Result<Control, Failure>
    ensures { Gives (head_of parallel) result (whole (control_of saturated parallel text.now)) }
{
    let (control, rest) = take_control(alloc, parallel, text)?;
    at_end(control, rest)
}

/// The control of a DO at the front of a text, and what follows it.
#[tactic(auto, unfolding(crate::specs::StatementReading::control_of))]
fn take_control(alloc: Global, parallel: bool, text: &[u8]) -> Result<(Control, &[u8]), Failure>
    ensures gives { Gives (control_and_rest parallel) result (control_of saturated parallel text.now) }
    ensures shorter { IfOk result (λ x. length x.1.now < length text.now) }
{
    let (word, rest) = split_word(text);
    let Some(variable) = name_of(word) else {
        return Err(Failure::NoForm);
    };
    let Some(rest) = after(rest, b"=") else {
        return Err(Failure::NoForm);
    };
    let (first, rest) = expr(alloc, rest)?;
    let Some(rest) = after(rest, b",") else {
        drop(first);
        return Err(Failure::NoForm);
    };
    let (last, rest) = match expr(alloc, rest) {
        Ok(found) => found,
        Err(failure) => {
            drop(first);
            return Err(failure);
        }
    };
    let (step, rest) = match step(alloc, rest) {
        Ok(found) => found,
        Err(failure) => {
            drop(first);
            drop(last);
            return Err(failure);
        }
    };
    let control = Control {
        variable,
        first,
        last,
        step,
    };
    Ok((control, rest))
}

/// The text without a comma at its front.
fn without_comma(text: &[u8]) -> &[u8]
    ensures { result.now ≡ Spec.without_comma text.now }
{
    match after(text, b",") {
        Some(rest) => rest,
        None => text,
    }
}

/// The increment of a DO and what follows it. Where none is written it is 1.
#[tactic(auto, unfolding(crate::specs::StatementReading::step_of))]
fn step(alloc: Global, text: &[u8]) -> Result<(Expr, &[u8]), Failure>
    ensures gives { Gives expr_and_rest result (step_of saturated text.now) }
    ensures shorter { IfOk result (λ x. length x.1.now ≤ length text.now) }
{
    match after(text, b",") {
        Some(behind) => expr(alloc, behind),
        None => Ok((Expr::literal(1), text)),
    }
}
