//! IF and ELSE IF statements (ANSI X3.9-1978, sections 11.5 to 11.7), each after its parenthesis.

ghost use Rattle.std.specs.Prelude.{◌≡◌};
ghost use Rattle.ped_tree.specs.Grammar.Items as plain;
ghost use Rattle.ped_tree.specs.Views.{cond_tree};
ghost use Rattle.ped_expressions.specs.ExpressionReading.{saturated};
ghost use Rattle.ped_expressions.specs.Views.{Gives};
ghost use Rattle.ped_tree.specs.Grammar.ItemViews.{item_of};
ghost use Rattle.ped_statements.specs.StatementReading.{if_of, else_if_of, behind_logical};
ghost use Rattle.ped_statements.specs.StatementViews.{simple_tree};

use crate::simple_statements::{is_word, simple};
use ped_expressions::{Failure, after, cond};
use ped_tree::grammar::Item;
use ped_tree::{Cond, Stmt};
use std::alloc::Global;

/// The block IF or logical IF of which the text is what follows `IF (`.
#[tactic(auto, unfolding(crate::specs::StatementReading::if_of))]
pub fn if_statement(alloc: Global, text: &[u8]) -> Result<Item, Failure>
    ensures { Gives item_of result (if_of saturated text.now) }
{
    let (condition, rest) = cond(alloc, text)?;
    let Some(rest) = after(rest, b")") else {
        drop(condition);
        return Err(Failure::NoForm);
    };
    if is_word(rest, b"THEN") {
        return Ok(block_if(condition));
    }
    match simple(alloc, rest) {
        Ok(statement) => Ok(logical_if(condition, statement)),
        Err(failure) => {
            drop(condition);
            Err(failure)
        }
    }
}

/// The ELSE IF of which the text is what follows `ELSE IF (`.
#[tactic(auto, unfolding(crate::specs::StatementReading::else_if_of))]
pub fn else_if_statement(alloc: Global, text: &[u8]) -> Result<Item, Failure>
    ensures { Gives item_of result (else_if_of saturated text.now) }
{
    let (condition, rest) = cond(alloc, text)?;
    if is_word(rest, b")THEN") {
        Ok(else_if(condition))
    } else {
        drop(condition);
        Err(Failure::NoForm)
    }
}

fn block_if(condition: Cond) -> Item
    ensures { item_of result ≡ plain.block_if (cond_tree condition) }
{
    Item::BlockIf(condition)
}

fn logical_if(condition: Cond, statement: Option<Stmt>) -> Item
    ensures { item_of result ≡ plain.logical_if (cond_tree condition) (behind_logical (simple_tree statement)) }
{
    Item::LogicalIf(condition, statement)
}

fn else_if(condition: Cond) -> Item
    ensures { item_of result ≡ plain.else_if (cond_tree condition) }
{
    Item::ElseIf(condition)
}
