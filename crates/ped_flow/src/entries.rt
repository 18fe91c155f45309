//! What is known of each statement of a program for many scalars.

ghost use Rattle.std.specs.Prelude.{◌≡◌, length};

use crate::parts::Part;
use crate::row_steps::copied;
use ped_base::NoMemory;
use ped_bits::Row;
use std::alloc::Global;

/// What is known of a statement.
#[derive(Drop)]
pub(crate) struct Entry {
    /// What it does, with the statements in it.
    pub(crate) part: Part,
    /// The scalars to which something happens on its paths.
    pub(crate) touched: Row,
    /// The number of the statement after it.
    pub(crate) behind: u32,
    ghost touched_wide: { length touched ≡ part.summaries.width },
}

impl Entry {
    ghost use Rattle.std.specs.Prelude.{IfOk};
    ghost use Rattle.ped_flow.specs.Made.{IsMade};

    /// What is known of a statement with this number after it.
    pub(crate) fn new(alloc: Global, part: Part, behind: u32) -> Result<Entry, NoMemory>
        ensures { IfOk result (IsMade part behind) }
    {
        let mut touched = copied(alloc, &part.summaries.reads)?;
        part.summaries.overwritten.or_into(&mut touched);
        part.summaries.ends.or_into(&mut touched);
        part.summaries.blocked.or_into(&mut touched);
        part.summaries.loses.or_into(&mut touched);
        Ok(Entry {
            part,
            touched,
            behind,
        })
    }
}
