//! The outermost marked block that each statement is, or is in.

ghost use Rattle.std.specs.Prelude.{◌≡◌, ◌+◌, ◌<◌, ◌^◌, ◌++◌, [], ◌∷◌, None, Some, length, replicate, IfOk, OnOk};
ghost use Rattle.ped_tree.specs.Numbering.{statement_count, statements_count};
ghost use Rattle.ped_tree.specs.Views.{stmt_tree, stmt_trees};
ghost use Rattle.ped_inline.specs.Folding as Spec;
ghost use Rattle.ped_inline.specs.CodeFolding.{numbered_block, place_seen, places_seen};

use crate::blocks::is_block;
use ped_base::NoMemory;
use ped_tree::{Stmt, count_statement};
use std::alloc::Global;

/// A marked block that is in no other.
#[derive(Clone, Copy)]
pub(crate) struct CallBlock {
    /// The number of its statement.
    pub(crate) number: u32,
    /// How many DO loops are around it.
    pub(crate) loops: u32,
}

/// For each numbered statement, in text order, the outermost marked block that it is or is in.
pub(crate) fn block_places(alloc: Global, body: &[Stmt]) -> Result<Vec<Option<CallBlock>>, NoMemory>
    requires { statements_count (stmt_trees body.now) + 1 < 2 ^ 32 }
    ensures { IfOk result (λ places. places_seen places.items ≡ Spec.all_blocks_in 0 1 (stmt_trees body.now)) }
{
    let mut places = Vec::new(alloc);
    push_all(&mut places, 0, body)?;
    Ok(places)
}

/// Adds the blocks of statements that follow one another, are in no block and in this many DO loops.
#[cycle(places)]
fn push_all(
    places: &mut Vec<Option<CallBlock>>,
    loops: u32,
    statements: &[Stmt],
) -> Result<(), NoMemory>
    requires numbers { length places.old.items + statements_count (stmt_trees statements.now) + 1 < 2 ^ 32 }
    requires depths { loops + statements_count (stmt_trees statements.now) < 2 ^ 32 }
    ensures places { OnOk result (places_seen places.new.items ≡ places_seen places.old.items ++ Spec.all_blocks_in loops (length places.old.items + 1) (stmt_trees statements.now)) }
    ensures long { OnOk result (length places.new.items ≡ length places.old.items + statements_count (stmt_trees statements.now)) }
{
    for statement in statements {
        push_statement(places, loops, statement)?;
    }
    Ok(())
}

/// Adds the blocks of a statement and of those in it.
#[cycle(places)]
fn push_statement(
    places: &mut Vec<Option<CallBlock>>,
    loops: u32,
    statement: &Stmt,
) -> Result<(), NoMemory>
    requires numbers { length places.old.items + statement_count (stmt_tree statement.now) + 1 < 2 ^ 32 }
    requires depths { loops + statement_count (stmt_tree statement.now) < 2 ^ 32 }
    ensures places { OnOk result (places_seen places.new.items ≡ places_seen places.old.items ++ Spec.blocks_in loops (length places.old.items + 1) (stmt_tree statement.now)) }
    ensures long { OnOk result (length places.new.items ≡ length places.old.items + statement_count (stmt_tree statement.now)) }
{
    match statement {
        Stmt::Comment(_) => Ok(()),
        Stmt::If {
            condition: _,
            then_part,
            else_part,
        } => {
            if is_block(statement) {
                return push_block(places, loops, count_statement(statement));
            }
            places.push(None)?;
            push_all(places, loops, then_part)?;
            push_all(places, loops, else_part)
        }
        Stmt::Do(d) => {
            places.push(None)?;
            push_all(places, loops + 1, &d.body)
        }
        Stmt::Assign { left: _, right: _ } => push_one(places),
        Stmt::Print(_) => push_one(places),
        Stmt::Read(_) => push_one(places),
        Stmt::Stop => push_one(places),
    }
}

/// Adds a statement that is no block and has no other in it.
fn push_one(places: &mut Vec<Option<CallBlock>>) -> Result<(), NoMemory>
    ensures places { OnOk result (places_seen places.new.items ≡ places_seen places.old.items ++ None ∷ []) }
    ensures long { OnOk result (length places.new.items ≡ length places.old.items + 1) }
{
    places.push(None)?;
    Ok(())
}

/// Adds a marked block once for itself and once for each statement in it, `count` times in all.
fn push_block(places: &mut Vec<Option<CallBlock>>, loops: u32, count: u32) -> Result<(), NoMemory>
    requires { length places.old.items + 1 < 2 ^ 32 }
    ensures places { OnOk result (places_seen places.new.items ≡ places_seen places.old.items ++ replicate count (Some (numbered_block (length places.old.items + 1) loops))) }
    ensures long { OnOk result (length places.new.items ≡ length places.old.items + count) }
{
    let block = CallBlock {
        number: places.len() as u32 + 1,
        loops,
    };
    for _ in 0..count {
        places.push(Some(block))?;
    }
    Ok(())
}

/// The block that stands for the statement with this number.
pub(crate) fn block_at(places: &[Option<CallBlock>], number: u32) -> Option<CallBlock>
    ensures { place_seen result ≡ Spec.block_at (places_seen places.now) number }
{
    match places.get((number as usize).saturating_sub(1)) {
        Some(place) => *place,
        None => None,
    }
}
