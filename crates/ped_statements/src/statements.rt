//! What the text of a statement is: a statement of the profile, one that the profile leaves out, or none.

ghost use Rattle.std.specs.Prelude.{◌≡◌, IfOk, Some, None};
ghost use Rattle.ped_tree.specs.Grammar.Items as plain;
ghost use Rattle.ped_tree.specs.Grammar.ItemViews.{item_of, reading_of};
ghost use Rattle.ped_statements.specs.ProfileReading.{reading_in};
ghost use Rattle.ped_statements.specs.Saturated.{IsReadAs};
ghost use Rattle.ped_statements.specs.StatementReading.{simply, statement_of};
ghost use Rattle.ped_statements.specs.StatementViews.{simple_tree};
ghost use Rattle.ped_expressions.specs.ExpressionReading.{saturated};
ghost use Rattle.ped_expressions.specs.Views.{Gives};

use crate::keyword_statements::keyword_statement;
use crate::outside_profile::is_outside;
use crate::simple_statements::simple;
use ped_base::NoMemory;
use ped_expressions::Failure;
use ped_tree::Stmt;
use ped_tree::grammar::{Item, StatementReading};
use std::alloc::Global;

/// What the text of a statement is, where a literal above 4294967295 is read as that number: no tree keeps more than
/// 32 bits of a literal, and the profile ends at 2147483647. It says what the text says exactly where some form of
/// the profile has it; that the profile leaves it out exactly where it has no form and begins as such statements do;
/// and else that it has no form.
#[tactic(auto, using(crate::proofs::StatementSteps::is_read))]
pub fn read_statement(alloc: Global, text: &[u8]) -> Result<StatementReading, NoMemory>
    ensures { IfOk result (λ r. IsReadAs saturated text.now (reading_of r)) }
{
    reading(alloc, text)
}

/// The statement of the profile where there is one, and else whether the profile leaves it out.
#[tactic(auto, unfolding(crate::specs::ProfileReading::reading_in))]
fn reading(alloc: Global, text: &[u8]) -> Result<StatementReading, NoMemory>
    ensures { IfOk result (λ r. reading_of r ≡ reading_in saturated text.now) }
{
    match statement(alloc, text) {
        Ok(item) => Ok(StatementReading::Says(item)),
        Err(Failure::OutOfMemory) => Err(NoMemory),
        Err(Failure::NoForm) => {
            if is_outside(alloc, text)? {
                Ok(StatementReading::OutsideProfile)
            } else {
                Ok(StatementReading::NoForm)
            }
        }
    }
}

/// The statement of the profile that the text is: a simple one where it is one, and else one that begins
/// with a keyword.
#[tactic(auto, unfolding(crate::specs::StatementReading::statement_of))]
fn statement(alloc: Global, text: &[u8]) -> Result<Item, Failure>
    ensures { Gives item_of result (statement_of saturated text.now) }
{
    match simple(alloc, text) {
        Ok(statement) => Ok(item(statement)),
        Err(Failure::OutOfMemory) => Err(Failure::OutOfMemory),
        Err(Failure::NoForm) => keyword_statement(alloc, text),
    }
}

/// What a simple statement says.
fn item(statement: Option<Stmt>) -> Item
    ensures { item_of result ≡ simply (simple_tree statement) }
{
    match statement {
        Some(statement) => Item::Simple(statement),
        None => Item::Continue,
    }
}
