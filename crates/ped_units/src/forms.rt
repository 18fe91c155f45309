//! What the text of a statement is in a file of program units: a statement of the profile if it is one, else CALL,
//! SUBROUTINE or RETURN (ANSI X3.9-1978, sections 11.5, 15.6 to 15.8).

ghost use Rattle.std.specs.Prelude.{◌≡◌, IfOk, if◌then◌else◌, Some, None, map, codes};
ghost use Rattle.ped_base.specs.Lists.{is_same_text};
ghost use Rattle.ped_tree.specs.Views.{expr_tree};
ghost use Rattle.ped_tree.specs.Grammar.ItemViews.{reading_of};
ghost use Rattle.ped_expressions.specs.ExpressionReading.{expr_of, saturated};
ghost use Rattle.ped_expressions.specs.Scanning.{go_on};
ghost use Rattle.ped_valid.specs.ped_parse.specs.ped_statements.specs.Listing.{several};
ghost use Rattle.ped_valid.specs.ped_parse.specs.ped_statements.specs.StatementReading.{name_at};
ghost use Rattle.ped_expressions.specs.Views.{Gives};
ghost use Rattle.ped_units.specs.UnitReading as Spec;
ghost use Rattle.ped_units.specs.UnitReading.{IsItemReadAs};
ghost use Rattle.ped_units.specs.Views.{called_of, unit_item_of};

use crate::items::{Called, UnitItem};
use ped_base::{Names, NoMemory};
use ped_expressions::{Failure, after, cond, expr, name_of, split_word};
use ped_statements::read_statement;
use ped_tree::Expr;
use ped_tree::grammar::StatementReading;
use std::alloc::Global;

/// What the text of a statement is, where a literal above 4294967295 is read as that number, as in `read_statement`.
pub fn read_unit_item(alloc: Global, text: &[u8]) -> Result<UnitItem, NoMemory>
    ensures { IfOk result (λ i. IsItemReadAs saturated text.now (unit_item_of i)) }
{
    match read_statement(alloc, text)? {
        StatementReading::Says(item) => Ok(UnitItem::Plain(StatementReading::Says(item))),
        StatementReading::OutsideProfile => {
            unit_item_or(
                alloc,
                text,
                UnitItem::Plain(StatementReading::OutsideProfile),
            )
        }
        StatementReading::NoForm => {
            unit_item_or(alloc, text, UnitItem::Plain(StatementReading::NoForm))
        }
    }
}

/// The CALL, SUBROUTINE or RETURN that the text is, or else this.
fn unit_item_or(alloc: Global, text: &[u8], other: UnitItem) -> Result<UnitItem, NoMemory>
    ensures { IfOk result (λ i. unit_item_of i ≡ go_on (Spec.unit_item_in saturated text.now) (unit_item_of other) (λ i. i)) }
{
    match unit_item(alloc, text) {
        Ok(item) => {
            drop(other);
            Ok(item)
        }
        Err(Failure::NoForm) => Ok(other),
        Err(Failure::OutOfMemory) => {
            drop(other);
            Err(NoMemory)
        }
    }
}

/// The CALL, the logical IF with a CALL, the SUBROUTINE or the RETURN that the whole text is.
#[tactic(auto, unfolding(crate::specs::UnitReading::unit_item_in))]
fn unit_item(alloc: Global, text: &[u8]) -> Result<UnitItem, Failure>
    ensures { Gives unit_item_of result (Spec.unit_item_in saturated text.now) }
{
    if is_word(text, b"RETURN") {
        return Ok(UnitItem::Return);
    }
    if let Some(behind) = after(text, b"CALL") {
        let called = read_called(alloc, behind)?;
        return Ok(UnitItem::Call(called));
    }
    if let Some(behind) = after(text, b"SUBROUTINE") {
        return subroutine(alloc, behind);
    }
    let Some(behind) = after(text, b"IF(") else {
        return Err(Failure::NoForm);
    };
    if_call(alloc, behind)
}

/// Whether the text is the word.
fn is_word(text: &[u8], word: &[u8]) -> bool
    ensures { result ≡ is_same_text text.now word.now }
{
    text == word
}

/// The logical IF with a CALL, by what follows its opening parenthesis.
#[tactic(auto, unfolding(crate::specs::UnitReading::if_call_of))]
fn if_call(alloc: Global, text: &[u8]) -> Result<UnitItem, Failure>
    ensures { Gives unit_item_of result (Spec.if_call_of saturated text.now) }
{
    let (condition, rest) = cond(alloc, text)?;
    let Some(behind) = after(rest, b")CALL") else {
        drop(condition);
        return Err(Failure::NoForm);
    };
    match read_called(alloc, behind) {
        Ok(called) => Ok(UnitItem::LogicalIfCall(condition, called)),
        Err(failure) => {
            drop(condition);
            Err(failure)
        }
    }
}

/// The subroutine's name and the arguments, which follow CALL.
#[tactic(auto, unfolding(crate::specs::UnitReading::called_of))]
fn read_called(alloc: Global, text: &[u8]) -> Result<Called, Failure>
    ensures { Gives called_of result (Spec.called_of saturated text.now) }
{
    let (word, rest) = split_word(text);
    let Some(name) = name_of(word) else {
        return Err(Failure::NoForm);
    };
    let arguments = arguments(alloc, rest)?;
    Ok(Called { name, arguments })
}

/// The arguments of a CALL that the whole text is.
#[tactic(auto, unfolding(crate::specs::UnitReading::arguments_of))]
fn arguments(alloc: Global, text: &[u8]) -> Result<Vec<Expr>, Failure>
    ensures { Gives (λ es. map expr_tree es.items) result (Spec.arguments_of saturated text.now) }
{
    if text.is_empty() {
        return Ok(Vec::new(alloc));
    }
    let Some(behind) = after(text, b"(") else {
        return Err(Failure::NoForm);
    };
    let (arguments, rest) = expressions(alloc, behind)?;
    closed(arguments, rest)
}

/// The expressions at the front with a comma between two, and what follows them.
fn expressions(alloc: Global, text: &[u8]) -> Result<(Vec<Expr>, &[u8]), Failure>
    ensures { Gives (λ x. (map expr_tree x.0.items, x.1.now)) result (several (expr_of saturated) text.now) }
{
    let mut expressions = Vec::new(alloc);
    let mut left = text;
    loop {
        let (next, rest) = expr(alloc, left)?;
        expressions.push(next)?;
        match after(rest, b",") {
            Some(behind) => left = behind,
            None => return Ok((expressions, rest)),
        }
    }
}

/// What was read, where a closing parenthesis alone is left.
fn closed<T: Drop>(read: T, rest: &[u8]) -> Result<T, Failure>
    ensures { Gives (λ x. x) result (if is_same_text rest.now (codes ")") then Some read else None) }
{
    if is_word(rest, b")") {
        Ok(read)
    } else {
        Err(Failure::NoForm)
    }
}

/// SUBROUTINE, by what follows it.
#[tactic(auto, unfolding(crate::specs::UnitReading::subroutine_of))]
fn subroutine(alloc: Global, text: &[u8]) -> Result<UnitItem, Failure>
    ensures { Gives unit_item_of result (Spec.subroutine_of text.now) }
{
    let (word, rest) = split_word(text);
    let Some(name) = name_of(word) else {
        return Err(Failure::NoForm);
    };
    let formals = formals(alloc, rest)?;
    Ok(UnitItem::Subroutine(name, formals))
}

/// The dummy arguments that the whole text is.
#[tactic(auto, unfolding(crate::specs::UnitReading::formals_of))]
fn formals(alloc: Global, text: &[u8]) -> Result<Names, Failure>
    ensures { Gives (λ names. names) result (Spec.formals_of text.now) }
{
    if text.is_empty() {
        return Ok(Names::new(alloc));
    }
    let Some(behind) = after(text, b"(") else {
        return Err(Failure::NoForm);
    };
    let (names, rest) = names(alloc, behind)?;
    closed(names, rest)
}

/// The names at the front with a comma between two, and what follows them.
fn names(alloc: Global, text: &[u8]) -> Result<(Names, &[u8]), Failure>
    ensures { Gives (λ x. (x.0, x.1.now)) result (several name_at text.now) }
{
    let mut names = Names::new(alloc);
    let mut left = text;
    loop {
        let (word, rest) = split_word(left);
        let Some(next) = name_of(word) else {
            return Err(Failure::NoForm);
        };
        names.push(next)?;
        match after(rest, b",") {
            Some(behind) => left = behind,
            None => return Ok((names, rest)),
        }
    }
}
