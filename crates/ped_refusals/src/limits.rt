//! Whether a statement exceeds a limit of the profile: by its literals and arrays, the number of statements,
//! their nesting depth, its references, and its printed length.

ghost use Rattle.std.specs.Prelude.{◌≡◌, ◌<◌, ◌^◌, map, nat_lt, length};
ghost use Rattle.ped_tree.specs.Printing.{own_text, do_text};
ghost use Rattle.ped_tree.specs.Views.{stmt_tree};
ghost use Rattle.ped_print.specs.Lengths.{limited};
ghost use Rattle.ped_tree.specs.Grammar.Contexts as Contexts;
ghost use Rattle.ped_tree.specs.Grammar.LimitNumbers.{most_characters};
ghost use Rattle.ped_tree.specs.Grammar.Occurrences.{of_reading};
ghost use Rattle.ped_tree.specs.Grammar.ProgramRefusals as Spec;
ghost use Rattle.ped_tree.specs.Grammar.ProgramRefusals.{block_depth};
ghost use Rattle.ped_tree.specs.Grammar.ItemViews.{item_of, do_head, reading_of, entry_of};
ghost use Rattle.ped_refusals.specs.OpenBlocks.{blocks_of};
ghost use Rattle.ped_refusals.specs.OpenContexts.{context_of};

use crate::blocks::{Block, block_depth, loop_depth};
use crate::contexts::Context;
use ped_base::Name;
use ped_expressions::cond_has_large_literal;
use ped_limits::{
    MOST_BLOCKS_NESTED, MOST_CHARACTERS, MOST_LOOPS_NESTED, MOST_REFERENCES, MOST_STATEMENTS,
    cond_references, decl_has_large_literal, do_references, has_eight_dimensions,
    head_has_large_literal, references, statement_count, stmt_has_large_literal,
};
use ped_print::{decl_length, do_length, if_length, length, private_length, save_length};
use ped_tree::Stmt;
use ped_tree::grammar::{DoStatement, Entry, Item, StatementReading};
use ped_tree::names::NameSet;

/// Whether a statement passes a limit, where `variables` are those of the open DO loops, `rest` are the
/// statements after it, and SAVE without a list is read as `saved`.
pub fn passes_limit(
    context: &Context,
    variables: &[Name],
    rest: &[Entry],
    saved: &[Name],
    item: &Item,
) -> bool
    requires variables { variables.now ≡ Contexts.open_variables (blocks_of context.now.blocks.items) }
    requires fits { block_depth (blocks_of context.now.blocks.items) < 2 ^ 64 }
    ensures { result ≡ Spec.passes_limit saved.now (context_of context.now) (map entry_of rest.now) (item_of item.now) }
{
    is_too_large(item)
        || are_too_many(context.statements, item)
        || is_too_deep(&context.blocks, item)
        || has_many_references(&context.constants, variables, private_behind(rest), item)
        || is_too_long(saved, item)
}

/// The names of the PRIVATE statement that comes next, none where none does.
fn private_behind(rest: &[Entry]) -> &[Name]
    ensures { result.now ≡ Spec.private_behind (map entry_of rest.now) }
{
    match rest.split_first() {
        Some((entry, _)) => private_names(&entry.reading),
        None => &[],
    }
}

fn private_names(reading: &StatementReading) -> &[Name]
    ensures { result.now ≡ of_reading Spec.private_in (reading_of reading.now) }
{
    match reading {
        StatementReading::Says(Item::Private(names)) => names.as_slice(),
        _ => &[],
    }
}

/// Whether a literal or the number of an array's dimensions is too large.
fn is_too_large(item: &Item) -> bool
    ensures { result ≡ Spec.is_too_large (item_of item.now) }
{
    match item {
        Item::Declaration(decl) => decl_has_large_literal(decl) || has_eight_dimensions(decl),
        Item::Simple(statement) => stmt_has_large_literal(statement),
        Item::LogicalIf(condition, None) | Item::BlockIf(condition) | Item::ElseIf(condition) => {
            cond_has_large_literal(condition)
        }
        Item::LogicalIf(condition, Some(statement)) => {
            cond_has_large_literal(condition) || stmt_has_large_literal(statement)
        }
        Item::Do(d) => head_has_large_literal(&d.first, &d.last, &d.step),
        Item::SaveAll
        | Item::Continue
        | Item::Else
        | Item::EndIf
        | Item::EndDo
        | Item::Private(_)
        | Item::End => false,
    }
}

/// Whether the numbered statements become too many.
fn are_too_many(before: usize, item: &Item) -> bool
    ensures { result ≡ Spec.are_too_many before (item_of item.now) }
{
    let own = numbered_in(item);
    own > 0 && before.saturating_add(own) > MOST_STATEMENTS
}

/// How many numbered statements an item is.
pub fn numbered_in(item: &Item) -> usize
    ensures { result ≡ limited (Contexts.numbered_in (item_of item.now)) }
{
    match item {
        Item::Simple(statement) => statement_count(statement),
        Item::LogicalIf(_, None) | Item::BlockIf(_) | Item::ElseIf(_) | Item::Do(_) => 1,
        Item::LogicalIf(_, Some(statement)) => statement_count(statement).saturating_add(1),
        Item::Declaration(_)
        | Item::SaveAll
        | Item::Continue
        | Item::Else
        | Item::EndIf
        | Item::EndDo
        | Item::Private(_)
        | Item::End => 0,
    }
}

/// Whether too many blocks are nested in one another with this one.
fn is_too_deep(blocks: &[Block], item: &Item) -> bool
    requires { block_depth (blocks_of blocks.now) < 2 ^ 64 }
    ensures { result ≡ Spec.is_too_deep (blocks_of blocks.now) (item_of item.now) }
{
    match item {
        Item::Do(_) => {
            loop_depth(blocks) >= MOST_LOOPS_NESTED || block_depth(blocks) >= MOST_BLOCKS_NESTED
        }
        Item::LogicalIf(_, _) | Item::BlockIf(_) | Item::ElseIf(_) => {
            block_depth(blocks) >= MOST_BLOCKS_NESTED
        }
        Item::Declaration(_)
        | Item::SaveAll
        | Item::Simple(_)
        | Item::Continue
        | Item::Else
        | Item::EndIf
        | Item::EndDo
        | Item::Private(_)
        | Item::End => false,
    }
}

/// Whether a statement has too many references, the writes of a DO's private names among them.
fn has_many_references(
    constants: &NameSet,
    variables: &[Name],
    private: &[Name],
    item: &Item,
) -> bool
    ensures { result ≡ Spec.has_many_references constants.now variables.now private.now (item_of item.now) }
{
    match item {
        Item::Simple(statement) => references(constants, variables, statement) > MOST_REFERENCES,
        Item::LogicalIf(condition, None) | Item::BlockIf(condition) | Item::ElseIf(condition) => {
            cond_references(constants, variables, condition) > MOST_REFERENCES
        }
        Item::LogicalIf(condition, Some(statement)) => {
            cond_references(constants, variables, condition) > MOST_REFERENCES
                || references(constants, variables, statement) > MOST_REFERENCES
        }
        Item::Do(d) => {
            do_references(constants, variables, &d.first, &d.last, private) > MOST_REFERENCES
        }
        Item::Declaration(_)
        | Item::SaveAll
        | Item::Continue
        | Item::Else
        | Item::EndIf
        | Item::EndDo
        | Item::Private(_)
        | Item::End => false,
    }
}

/// Whether a printed statement is too long.
fn is_too_long(saved: &[Name], item: &Item) -> bool
    ensures { result ≡ Spec.is_too_long saved.now (item_of item.now) }
{
    match item {
        Item::Declaration(decl) => decl_length(decl) > MOST_CHARACTERS,
        Item::SaveAll => !saved.is_empty() && save_length(saved) > MOST_CHARACTERS,
        Item::Simple(statement) => is_statement_too_long(statement),
        Item::LogicalIf(condition, None) | Item::BlockIf(condition) | Item::ElseIf(condition) => {
            if_length(condition) > MOST_CHARACTERS
        }
        Item::LogicalIf(condition, Some(statement)) => {
            if_length(condition) > MOST_CHARACTERS || is_statement_too_long(statement)
        }
        Item::Do(d) => is_do_too_long(d),
        Item::Private(names) => private_length(names.as_slice()) > MOST_CHARACTERS,
        Item::Continue | Item::Else | Item::EndIf | Item::EndDo | Item::End => false,
    }
}

/// Whether a statement by itself is too long.
fn is_statement_too_long(statement: &Stmt) -> bool
    ensures { result ≡ nat_lt most_characters (length (own_text (stmt_tree statement.now))) }
{
    length(statement) > MOST_CHARACTERS
}

/// Whether a DO statement is too long.
fn is_do_too_long(d: &DoStatement) -> bool
    ensures { result ≡ nat_lt most_characters (length (do_text (do_head d.now))) }
{
    let length = do_length(&d.variable, &d.first, &d.last, &d.step, d.parallel);
    length > MOST_CHARACTERS
}
