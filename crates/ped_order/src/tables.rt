//! The table of accesses.

ghost use Rattle.std.specs.Prelude.{◌≡◌, List, ◌∷◌, [], ◌++◌, map, IfOk, OnOk, MatchOption, None};
ghost use Rattle.std.specs.Map.{lookup};
ghost use Rattle.ped_store.specs.Cells.{same_cell};
ghost use Rattle.ped_store.specs.CellViews.{cell_view};
ghost use Rattle.ped_store.specs.Races.{race};
ghost use Rattle.ped_store.specs.Races as Races;
ghost use Rattle.ped_laws.specs.ped_eval.specs.AccessViews.{access_view, turn_view};
ghost use Rattle.ped_order.specs.Keys.{key_of};
ghost use Rattle.ped_order.specs.Sightings.{first_sighting};
ghost use Rattle.ped_order.specs.Entered.{told_by};
ghost use Rattle.ped_order.specs.Tables.{Remembers, told_with, IsKnown};

use crate::entering::{Entries, Touch, enter, spread};
use crate::keys::{Key, TouchedCell};
use crate::sightings::{Sighting, earlier_of, rival_in};
use crate::touched::Touched;
use indexmap::IndexMap;
use ped_base::NoMemory;
use ped_eval::{Access, Turn};
use std::alloc::Global;

/// The accesses of a run without a race, by what later accesses ask for. The iterations that all accesses of a cell are
/// in, the outermost first, are kept once for the cell. Only further in there are entries for each execution of a DO.
#[derive(Drop)]
pub(crate) struct Table {
    cells: IndexMap<TouchedCell, Touched>,
    entries: Entries,
    told: u64,
}

impl Table {
    /// A table without an access, which takes no memory.
    pub(crate) fn new(alloc: Global) -> Table
        ensures { Remembers result [] }
    {
        Table {
            cells: IndexMap::new(alloc),
            entries: IndexMap::new(alloc),
            told: 0,
        }
    }

    /// The earliest access that races with this one.
    pub(crate) fn rival(&self, alloc: Global, access: &Access) -> Result<Option<Sighting>, NoMemory>
        ensures { IfOk result (λ found. (seen : List Races.Access) → Remembers self.now seen → found ≡ first_sighting (λ a. race a (access_view access.now)) 0 seen) }
    {
        let known = self.touched(access);
        let path = access.path.as_slice();
        let mut found = None;
        for level in 0..path.len() {
            let here = self.rival_at(alloc, &known, access, &path[..level], &path[level])?;
            found = earlier_of(found, here);
        }
        Ok(found)
    }

    /// What is remembered of the accesses of a cell.
    fn touched(&self, access: &Access) -> Touched
        ensures { IsKnown (lookup (same_cell (cell_view access.now.cell)) self.now.cells.entries) result }
    {
        let cell = TouchedCell::new(&access.cell);
        match self.cells.get(&cell) {
            Some(touched) => return *touched,
            None => return Touched::none(access.path.as_slice()),
        }
    }

    /// The earliest access that races with this one in one of its turns.
    fn rival_at(
        &self,
        alloc: Global,
        touched: &Touched,
        access: &Access,
        around: &[Turn],
        turn: &Turn,
    ) -> Result<Option<Sighting>, NoMemory>
        ensures { IfOk result (λ found. found ≡ told_with touched.now (told_by self.now.entries.entries) (key_of (access_view access.now).cell (map turn_view around.now) (turn_view turn.now)) turn.now.number access.now.writes) }
    {
        if around.len() < touched.path.len() {
            return Ok(touched.rival(around, turn, access.writes));
        }
        let key = Key::new(alloc, &access.cell, around, turn)?;
        let entry = self.entries.get(&key).copied();
        Ok(rival_in(&entry, turn.number, access.writes))
    }

    /// Adds an access. If memory runs out, the table is useless.
    pub(crate) fn add(&mut self, alloc: Global, access: &Access) -> Result<(), NoMemory>
        ensures { OnOk result ((seen : List Races.Access) → Remembers self.old seen → Remembers self.new (seen ++ access_view access.now ∷ [])) }
    {
        if self.told == u64::MAX {
            return Err(NoMemory);
        }
        let touch = Touch {
            cell: access.cell,
            writes: access.writes,
            sighting: Sighting {
                before: self.told,
                statement: access.statement,
            },
        };
        let known = self.touched(access);
        let path = access.path.as_slice();
        let common = known.path.common_count(path);
        spread(&mut self.entries, alloc, &touch.cell, &known, common)?;
        enter(&mut self.entries, alloc, &touch, path, common)?;
        let after = known.with(common, touch.writes, touch.sighting);
        self.cells.insert(TouchedCell::new(&touch.cell), after)?;
        self.told += 1;
        Ok(())
    }
}
