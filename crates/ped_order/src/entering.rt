//! Accesses are entered into a table of keys, turn by turn.

ghost use Rattle.std.specs.Prelude.{◌≤◌, ◌++◌, ◌∷◌, [], ℕ, Some, map, length, OnOk};
ghost use Rattle.ped_store.specs.CellViews.{cell_view};
ghost use Rattle.ped_laws.specs.ped_eval.specs.AccessViews.{turn_view};
ghost use Rattle.ped_order.specs.Paths.{level_view};
ghost use Rattle.ped_order.specs.Entered.{Telling, told_by, in_turns, Enters, Spreads};

use crate::keys::Key;
use crate::sightings::{Entry, Sighting, Summary, with_access};
use crate::touched::Touched;
use indexmap::IndexMap;
use ped_base::NoMemory;
use ped_eval::Turn;
use ped_store::Cell;
use std::alloc::Global;

/// What is remembered of the accesses at each key.
pub(crate) type Entries = IndexMap<Key, Entry>;

/// A read or a write of a cell, whatever iterations it is in.
#[derive(Clone, Copy)]
pub(crate) struct Touch {
    /// The cell.
    pub cell: Cell,
    /// Whether it is a write.
    pub writes: bool,
    /// When it was reported, and its statement.
    pub sighting: Sighting,
}

/// Enters what is remembered of the accesses of a cell in a path, in its iterations from this one on.
pub(crate) fn spread(
    entries: &mut Entries,
    alloc: Global,
    cell: &Cell,
    touched: &Touched,
    from: usize,
) -> Result<(), NoMemory>
    ensures { OnOk result (Spreads entries.old.entries entries.new.entries from (map level_view touched.now.path) touched.now.seen (cell_view cell.now)) }
{
    if touched.path.len() <= from {
        return Ok(());
    }
    match &touched.seen {
        None => return Ok(()),
        Some(summary) => {
            let turns = touched.path.turns(alloc)?;
            return enter_summary(entries, alloc, cell, summary, &turns, from);
        }
    }
}

/// Enters the earliest of accesses, and the earliest write among them, in their turns from this one on.
fn enter_summary(
    entries: &mut Entries,
    alloc: Global,
    cell: &Cell,
    summary: &Summary,
    turns: &[Turn],
    from: usize,
) -> Result<(), NoMemory>
    ensures { OnOk result (Spreads entries.old.entries entries.new.entries from (map turn_view turns.now) (Some summary.now) (cell_view cell.now)) }
{
    let first = Touch {
        cell: *cell,
        writes: false,
        sighting: summary.first,
    };
    enter(entries, alloc, &first, turns, from)?;
    match summary.write {
        None => return Ok(()),
        Some(sighting) => {
            let write = Touch {
                cell: *cell,
                writes: true,
                sighting,
            };
            return enter(entries, alloc, &write, turns, from);
        }
    }
}

/// Enters an access in its turns from this one on.
pub(crate) fn enter(
    entries: &mut Entries,
    alloc: Global,
    touch: &Touch,
    turns: &[Turn],
    from: usize,
) -> Result<(), NoMemory>
    ensures { OnOk result (Enters (told_by entries.old.entries) entries.new.entries from touch.now.sighting (in_turns (map turn_view turns.now) touch.now)) }
{
    for level in from..turns.len() {
        enter_at(entries, alloc, touch, &turns[..level], &turns[level])?;
    }
    Ok(())
}

/// Enters an access at its key in one turn, where that is of a PARALLEL DO.
fn enter_at(
    entries: &mut Entries,
    alloc: Global,
    touch: &Touch,
    around: &[Turn],
    turn: &Turn,
) -> Result<(), NoMemory>
    ensures { OnOk result ((told : Telling) (from : ℕ) → from ≤ length around.now → Enters told entries.old.entries from touch.now.sighting (in_turns (map turn_view around.now) touch.now)
        → Enters told entries.new.entries from touch.now.sighting (in_turns (map turn_view around.now ++ turn_view turn.now ∷ []) touch.now)) }
{
    if !turn.parallel {
        return Ok(());
    }
    let key = Key::new(alloc, &touch.cell, around, turn)?;
    let entry = entries.get(&key).copied();
    let entry = with_access(&entry, turn.number, touch.writes, touch.sighting);
    entries.insert(key, entry)?;
    Ok(())
}
