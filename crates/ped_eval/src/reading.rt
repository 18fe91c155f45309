//! READ (ANSI X3.9-1978, section 12.8).

ghost use Rattle.std.specs.Prelude.{◌≡◌, ◌+◌, ◌++◌, map, true};
ghost use Rattle.std.specs.List.{list_all};
ghost use Rattle.ped_tree.specs.Tree.{Read};
ghost use Rattle.ped_tree.specs.Views.{expr_tree};
ghost use Rattle.ped_store.specs.Keeping.{memory_of};
ghost use Rattle.ped_eval.specs.Runs as Runs;
ghost use Rattle.ped_symbols.specs.RightUses.RightUses.{target_is_right};
ghost use Rattle.ped_eval.specs.Readiness.{kinds_by, setting_by, IsReady, CanDo};
ghost use Rattle.ped_eval.specs.Told.{Ran, StaysReady};
ghost use Rattle.ped_eval.specs.Takings.{item_taken, read_taken};
ghost use Rattle.ped_eval.specs.Agreement.{before};
ghost use Rattle.ped_eval.specs.Watched.{Watched};
ghost use Rattle.ped_eval.specs.Noting.{HasAdded};
ghost use Rattle.ped_eval.specs.StatementNotes.{read_noted, IsTaken, IsItemNoted};

use crate::evaluation::target_cell;
use crate::notes::Notes;
use crate::states::{Flow, RunError, State};
use crate::surroundings::Surroundings;
use crate::telling::tell;
use crate::watches::Watch;
use ped_store::{Cell, RunFault};
use ped_symbols::Symbols;
use ped_tree::Expr;
use std::alloc::Global;

/// Runs the READ with this number: it begins the next data line, and takes a value for each item. A watch gets what it
/// reads and writes.
pub(crate) fn run_read<W: Watch>(
    alloc: Global,
    symbols: &Symbols,
    state: &mut State,
    watch: &mut W,
    items: &[Expr],
    number: u32,
) -> Result<Flow, RunError>
    requires can { CanDo symbols.now state.old.scope number (Read (map expr_tree items.now)) }
    requires ready { IsReady symbols.now state.old.scope (memory_of state.old.store) }
    ensures told { Ran state.old.scope number (memory_of state.old.store) (number + 1) result (memory_of state.new.store)
        (Runs.run (setting_by symbols.now) (Read (map expr_tree items.now)) number state.old.scope) }
    ensures ready { StaysReady symbols.now result state.old.scope state.new.scope (memory_of state.new.store) }
    ensures watched { Watched W.follows watch.old watch.new state.old.scope (before state.old.scope number) (memory_of state.old.store).cells result
        (Runs.run (setting_by symbols.now) (Read (map expr_tree items.now)) number state.old.scope) }
{
    let mut notes = Notes::of_statement(alloc, watch);
    let taken = take_items(symbols, state, items, &mut notes);
    tell(alloc, watch, &state.scope, number, &notes)?;
    match taken {
        Ok(()) => return Ok(Flow::Going),
        Err(fault) => return Err(RunError::Fault {
            fault,
            statement: number,
        }),
    }
}

/// Begins the next data line, and takes a value for each item; notes are made of what is read and written.
///
/// # Errors
///
/// The first fault.
pub fn take_items(
    symbols: &Symbols,
    state: &mut State,
    items: &[Expr],
    notes: &mut Notes,
) -> Result<(), RunFault>
    requires right { list_all (target_is_right (kinds_by symbols.now)) (map expr_tree items.now) ≡ true }
    requires ready { IsReady symbols.now state.old.scope (memory_of state.old.store) }
    ensures taken { IsTaken (read_taken symbols.now.constants state.old.scope (map expr_tree items.now) (memory_of state.old.store)) (memory_of state.new.store) result }
    ensures scope { state.new.scope ≡ state.old.scope }
    ensures noted { HasAdded notes.old (read_noted symbols.now.constants state.old.scope (map expr_tree items.now) notes.old.next (memory_of state.old.store)) notes.new }
{
    notes.refer(&Cell::In, true);
    match state.store.next_line() {
        Ok(()) => {}
        Err(fault) => return Err(fault),
    }
    for item in items {
        match take_item(symbols, state, item, notes) {
            Ok(()) => {}
            Err(fault) => return Err(fault),
        }
    }
    Ok(())
}

/// Takes the next value of the data for an item, and stores it there.
fn take_item(
    symbols: &Symbols,
    state: &mut State,
    item: &Expr,
    notes: &mut Notes,
) -> Result<(), RunFault>
    requires right { target_is_right (kinds_by symbols.now) (expr_tree item.now) ≡ true }
    requires ready { IsReady symbols.now state.old.scope (memory_of state.old.store) }
    ensures taken { IsTaken (item_taken symbols.now.constants state.old.scope (expr_tree item.now) (memory_of state.old.store)) (memory_of state.new.store) result }
    ensures scope { state.new.scope ≡ state.old.scope }
    ensures noted { IsItemNoted symbols.now.constants state.old.scope (expr_tree item.now) notes.old (memory_of state.old.store) notes.new (memory_of state.new.store) result }
{
    match state.store.next_value() {
        Ok(value) => {
            let around = Surroundings {
                store: &state.store,
                scope: &state.scope,
                consts: symbols.consts(),
            };
            match target_cell(item, &around, notes) {
                Ok(cell) => match state.store.set(&cell, i128::from(value)) {
                    Ok(()) => {
                        notes.refer(&cell, true);
                        return Ok(());
                    }
                    Err(fault) => return Err(fault),
                },
                Err(fault) => return Err(fault),
            }
        }
        Err(fault) => return Err(fault),
    }
}
