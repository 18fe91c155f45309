//! Statements that begin with a keyword: declarations (ANSI X3.9-1978, section 8), lines of blocks and
//! loops (sections 11.5 to 11.10), PRIVATE, and END.

ghost use Rattle.std.specs.Prelude.{◌≡◌, codes};
ghost use Rattle.std.specs.List.{list_all};
ghost use Rattle.ped_tree.specs.Views.{declarator_tree};
ghost use Rattle.ped_base.specs.Lists.{is_same_text};
ghost use Rattle.ped_tree.specs.Grammar.ItemViews.{item_of};
ghost use Rattle.ped_expressions.specs.ExpressionReading.{saturated};
ghost use Rattle.ped_expressions.specs.Views.{Gives};
ghost use Rattle.ped_statements.specs.StatementReading as Spec;
ghost use Rattle.ped_statements.specs.StatementReading.{statement_behind, keyword_statement_of};
ghost use Rattle.ped_statements.specs.declared.keywords.Keyword.TheVariants as keyword;

use crate::conditionals::{else_if_statement, if_statement};
use crate::declarations::{constants, declarators};
use crate::keywords::{Keyword, take_keyword};
use crate::loops::do_statement;
use crate::names::{at_end, is_end, names};
use ped_expressions::{Failure, name_of};
use ped_tree::grammar::Item;
use ped_tree::{Decl, Declarator};
use std::alloc::Global;

/// What the text says, as a statement that begins with a keyword.
#[tactic(auto, unfolding(crate::specs::StatementReading::keyword_statement_of))]
pub fn keyword_statement(alloc: Global, text: &[u8]) -> Result<Item, Failure>
    ensures { Gives item_of result (keyword_statement_of saturated text.now) }
{
    match take_keyword(text) {
        Some((keyword, rest)) => statement_behind(alloc, keyword, rest),
        None => Err(Failure::NoForm),
    }
}

/// What a statement with that keyword says, by what follows the keyword.
#[tactic(auto, unfolding(crate::specs::StatementReading::statement_behind))]
fn statement_behind(alloc: Global, keyword: Keyword, text: &[u8]) -> Result<Item, Failure>
    ensures { Gives item_of result (statement_behind saturated keyword text.now) }
{
    match keyword {
        Keyword::Program => program(text),
        Keyword::Implicit => at_end(Item::Declaration(Decl::Implicit), text),
        Keyword::Integer => integer(alloc, text),
        Keyword::Dimension => dimension(alloc, text),
        Keyword::Parameter => parameter(alloc, text),
        Keyword::Save => save(alloc, text),
        Keyword::If => if_statement(alloc, text),
        Keyword::ElseIf => else_if_statement(alloc, text),
        Keyword::Else => at_end(Item::Else, text),
        Keyword::EndIf => at_end(Item::EndIf, text),
        Keyword::EndDo => at_end(Item::EndDo, text),
        Keyword::Do => do_statement(alloc, false, text),
        Keyword::ParallelDo => do_statement(alloc, true, text),
        Keyword::Private => private(alloc, text),
        Keyword::End => at_end(Item::End, text),
    }
}

/// PROGRAM (section 14.1), by what follows it.
#[tactic(auto, unfolding(crate::specs::StatementReading::statement_behind))]
fn program(text: &[u8]) -> Result<Item, Failure>
    ensures { Gives item_of result (statement_behind saturated keyword.Program text.now) }
{
    match name_of(text) {
        Some(name) => Ok(Item::Declaration(Decl::Program(name))),
        None => Err(Failure::NoForm),
    }
}

/// INTEGER (section 8.4), by what follows it.
#[tactic(auto, unfolding(crate::specs::StatementReading::statement_behind))]
fn integer(alloc: Global, text: &[u8]) -> Result<Item, Failure>
    ensures { Gives item_of result (statement_behind saturated keyword.Integer text.now) }
{
    let (declared, rest) = declarators(alloc, text)?;
    at_end(Item::Declaration(Decl::Integer(declared)), rest)
}

/// DIMENSION (section 8.1), by what follows it: arrays alone.
#[tactic(auto, using(crate::proofs::Arrays::arrays_all), unfolding(crate::specs::StatementReading::statement_behind))]
fn dimension(alloc: Global, text: &[u8]) -> Result<Item, Failure>
    ensures { Gives item_of result (statement_behind saturated keyword.Dimension text.now) }
{
    let (declared, rest) = declarators(alloc, text)?;
    let declared = at_end(declared, rest)?;
    if are_arrays(&declared) {
        Ok(Item::Declaration(Decl::Dimension(declared)))
    } else {
        drop(declared);
        Err(Failure::NoForm)
    }
}

/// Whether no scalar is among the declared names.
fn are_arrays(declared: &[Declarator]) -> bool
    ensures { result ≡ list_all (λ d. Spec.is_array (declarator_tree d)) declared.now }
{
    declared.iter().all(|d| is_array(d))
}

fn is_array(declared: &Declarator) -> bool
    ensures { result ≡ Spec.is_array (declarator_tree declared.now) }
{
    !declared.bounds.is_empty()
}

/// PARAMETER (section 8.6), by what follows its opening parenthesis.
#[tactic(auto, unfolding(crate::specs::StatementReading::statement_behind))]
fn parameter(alloc: Global, text: &[u8]) -> Result<Item, Failure>
    ensures { Gives item_of result (statement_behind saturated keyword.Parameter text.now) }
{
    let (values, rest) = constants(alloc, text)?;
    if is_closed(rest) {
        Ok(Item::Declaration(Decl::Parameter(values)))
    } else {
        drop(values);
        Err(Failure::NoForm)
    }
}

/// Whether a closing parenthesis alone is left.
fn is_closed(text: &[u8]) -> bool
    ensures { result ≡ is_same_text text.now (codes ")") }
{
    match text {
        [b')'] => true,
        _ => false,
    }
}

/// SAVE (section 8.9), by what follows it: nothing, or names.
#[tactic(auto, unfolding(crate::specs::StatementReading::statement_behind))]
fn save(alloc: Global, text: &[u8]) -> Result<Item, Failure>
    ensures { Gives item_of result (statement_behind saturated keyword.Save text.now) }
{
    if is_end(text) {
        return Ok(Item::SaveAll);
    }
    let names = names(alloc, text)?;
    Ok(Item::Declaration(Decl::Save(names)))
}

/// PRIVATE, by the names that follow it.
#[tactic(auto, unfolding(crate::specs::StatementReading::statement_behind))]
fn private(alloc: Global, text: &[u8]) -> Result<Item, Failure>
    ensures { Gives item_of result (statement_behind saturated keyword.Private text.now) }
{
    let names = names(alloc, text)?;
    Ok(Item::Private(names))
}
