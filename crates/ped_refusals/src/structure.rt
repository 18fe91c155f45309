//! Where a statement may be: the order of statements (ANSI X3.9-1978, section 3.5), the blocks of an IF
//! (section 11.6), the range of a DO and the statement that ends it (section 11.10).

ghost use Rattle.std.specs.Prelude.{◌≡◌};
ghost use Rattle.ped_tree.specs.Views.{stmt_tree};
ghost use Rattle.ped_tree.specs.Grammar.Contexts as Contexts;
ghost use Rattle.ped_tree.specs.Grammar.ProgramRefusals as Spec;
ghost use Rattle.ped_tree.specs.Grammar.ProgramRefusals.{where_it_says};
ghost use Rattle.ped_tree.specs.Grammar.ItemViews.{item_of, reading_of};
ghost use Rattle.ped_refusals.specs.OpenBlocks.{blocks_of};
ghost use Rattle.ped_refusals.specs.OpenContexts.{context_of};

use crate::blocks::{
    Block, carries_open, has_do, has_if, is_in_bare_do, is_in_block, is_in_do, is_stop, outside,
    takes_else,
};
use crate::contexts::{Context, rank, saves_list, saves_without};
use ped_tree::grammar::{Item, StatementReading};

/// Whether the text has no form, or one that may not occur there, with the label of its statement. A form
/// that the profile leaves out is refused as that.
pub fn breaks_syntax(context: &Context, label: Option<u32>, reading: &StatementReading) -> bool
    ensures { result ≡ Spec.breaks_syntax (context_of context.now) label (reading_of reading.now) }
{
    match reading {
        StatementReading::OutsideProfile => false,
        StatementReading::NoForm => true,
        StatementReading::Says(item) => is_behind_end(context)
            || is_misplaced(context, label, item),
    }
}

/// Whether END has come.
pub fn is_behind_end(context: &Context) -> bool
    ensures { result ≡ Spec.is_behind_end (context_of context.now) }
{
    context.phase >= 5
}

fn is_misplaced(context: &Context, label: Option<u32>, item: &Item) -> bool
    ensures { result ≡ Spec.is_misplaced (context_of context.now) label (item_of item.now) }
{
    is_out_of_order(context.phase, rank(item))
        || lacks_if(&context.blocks, item)
        || is_late_private(context.behind_do, item)
        || saves_again(context, item)
        || lacks_do(&context.blocks, label, item)
}

/// PROGRAM and IMPLICIT come once and before what follows them, declarations before executable statements.
fn is_out_of_order(phase: u8, rank: u8) -> bool
    ensures { result ≡ Spec.is_out_of_order phase rank }
{
    if rank < 3 {
        rank <= phase
    } else {
        rank < phase
    }
}

/// ELSE, ELSE IF or END IF without its IF.
fn lacks_if(blocks: &[Block], item: &Item) -> bool
    ensures { result ≡ Spec.lacks_if (blocks_of blocks.now) (item_of item.now) }
{
    match item {
        Item::ElseIf(_) | Item::Else => !takes_else(blocks),
        Item::EndIf => !has_if(blocks),
        _ => false,
    }
}

/// END DO that carries the label of no open DO, where the innermost block isn't a DO without a label.
fn lacks_do(blocks: &[Block], label: Option<u32>, item: &Item) -> bool
    ensures { result ≡ Spec.lacks_do (blocks_of blocks.now) label (item_of item.now) }
{
    match item {
        Item::EndDo => !carries_open(blocks, label) && !is_in_bare_do(blocks),
        _ => false,
    }
}

/// PRIVATE that isn't the first statement after a DO.
fn is_late_private(behind_do: bool, item: &Item) -> bool
    ensures { result ≡ Spec.is_late_private behind_do (item_of item.now) }
{
    match item {
        Item::Private(_) => !behind_do,
        _ => false,
    }
}

/// A SAVE after another, at least one of the two without a list (section 8.9).
fn saves_again(context: &Context, item: &Item) -> bool
    ensures { result ≡ Spec.saves_again (context_of context.now) (item_of item.now) }
{
    (saves_list(item) && context.saves_everything)
        || (saves_without(item) && (context.saves_names || context.saves_everything))
}

/// Whether the statement is one that the profile leaves out.
pub fn is_left_out(reading: &StatementReading) -> bool
    ensures { result ≡ Spec.is_left_out (reading_of reading.now) }
{
    match reading {
        StatementReading::OutsideProfile => true,
        StatementReading::Says(_) | StatementReading::NoForm => false,
    }
}

/// Whether END comes while a block is open, or ELSE, ELSE IF or END IF while a DO is open in the IF.
pub fn leaves_open(blocks: &[Block], reading: &StatementReading) -> bool
    ensures { result ≡ where_it_says (Spec.leaves_open (blocks_of blocks.now)) (reading_of reading.now) }
{
    match reading {
        StatementReading::Says(Item::ElseIf(_) | Item::Else | Item::EndIf) => is_in_do(blocks),
        StatementReading::Says(Item::End) => is_in_block(blocks),
        _ => false,
    }
}

/// Whether the label of an open DO is on a statement that can't end one, or while a block is open in
/// it that isn't a DO with that label.
pub fn ends_badly(blocks: &[Block], label: Option<u32>, reading: &StatementReading) -> bool
    ensures { result ≡ Spec.ends_badly (blocks_of blocks.now) label (reading_of reading.now) }
{
    match label {
        Some(label) => {
            has_do(blocks, label) && (!may_end(reading) || has_do(outside(blocks, label), label))
        }
        None => false,
    }
}

fn may_end(reading: &StatementReading) -> bool
    ensures { result ≡ where_it_says Contexts.may_end (reading_of reading.now) }
{
    match reading {
        StatementReading::Says(Item::Simple(stmt)) => !is_stop(stmt),
        StatementReading::Says(Item::Continue | Item::EndDo | Item::LogicalIf(_, _)) => true,
        _ => false,
    }
}

/// Whether a statement is STOP, also after a logical IF.
pub fn stops(reading: &StatementReading) -> bool
    ensures { result ≡ where_it_says Spec.stops (reading_of reading.now) }
{
    match reading {
        StatementReading::Says(Item::Simple(stmt) | Item::LogicalIf(_, Some(stmt))) => is_stop(
            stmt,
        ),
        _ => false,
    }
}
