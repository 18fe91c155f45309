//! The watch that looks for the first race of a run.

ghost use Rattle.std.specs.Prelude.{[]};
ghost use Rattle.ped_order.specs.Saw.{Saw};

use crate::tables::Table;
use ped_base::NoMemory;
use ped_eval::{Access, Watch};
use ped_store::Cell;
use std::alloc::Global;

/// The first race of a run.
#[derive(Clone, Copy)]
pub(crate) struct FoundRace {
    /// The cell.
    pub cell: Cell,
    /// The statement of the earlier access.
    pub first: u32,
    /// The statement of the later access.
    pub second: u32,
}

/// Receives the accesses of a run, and keeps the first race once there is one.
#[derive(Drop)]
pub(crate) struct RaceWatch {
    alloc: Global,
    table: Table,
    /// The first race, where one has been found.
    pub found: Option<FoundRace>,
}

impl RaceWatch {
    /// A watch that has received nothing.
    pub(crate) fn new(alloc: Global) -> RaceWatch
        ensures { Saw result [] }
    {
        RaceWatch {
            alloc,
            table: Table::new(alloc),
            found: None,
        }
    }
}

impl Watch for RaceWatch {
    ghost use Rattle.std.specs.Prelude.{is_some};
    ghost use Rattle.ped_order.specs.Saw.{SeesMore, race_found_stays};

    ghost follows = { SeesMore };

    ghost is_idle = { λ w. is_some w.found };

    ghost idles = { race_found_stays };

    fn keeps_nothing(&self) -> bool {
        self.found.is_some()
    }

    fn access(&mut self, access: &Access) -> Result<(), NoMemory> {
        if self.found.is_some() {
            return Ok(());
        }
        match self.table.rival(self.alloc, access)? {
            Some(first) => {
                self.found = Some(FoundRace {
                    cell: access.cell,
                    first: first.statement,
                    second: access.statement,
                });
                return Ok(());
            }
            None => return self.table.add(self.alloc, access),
        }
    }
}
