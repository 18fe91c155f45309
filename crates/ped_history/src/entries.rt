//! A history keeps its entries in one vector, the oldest first, with a place between past and future.
//! So a step back or forward only moves the place and takes no memory.

ghost use Rattle.std.specs.Prelude.{◌≡◌, ◌≤◌, [], length, slice_get, Some, IfOk, OnOk, OnErr};
ghost use Rattle.ped_history.specs.Timeline.{timeline, pushed, gone_back, gone_forward};

use ped_base::NoMemory;
use std::alloc::Global;
use std::marker::Model;

/// There is no entry in the past.
#[derive(Clone, Copy, PartialEq, Eq)]
pub struct NothingToUndo;

/// There is no entry in the future.
#[derive(Clone, Copy, PartialEq, Eq)]
pub struct NothingToRedo;

/// Entries of the past and of the future. Contracts see both lists, and as `spare` how many entries
/// can be pushed before memory is taken.
#[derive(Drop)]
pub struct History<D> {
    entries: Vec<D>,
    at: usize,
}

impl<D> Model for History<D> {
    ghost use Rattle.std.specs.Prelude.{◌≤◌, ◌-◌, take, drop, length, reverse};
    ghost use Rattle.std.specs.Vec.{vec_capacity};
    ghost use Rattle.ped_history.specs.Timeline.{Timeline, timeline, timeline_code};

    ghost Value = { Timeline D };

    ghost coded = { timeline_code D.code };

    ghost view = { λ h. timeline (reverse (take h.at h.entries.items)) (drop h.at h.entries.items) (vec_capacity h.entries - h.at) };

    ghost invariant = { λ h. h.at ≤ length h.entries.items };
}

impl<D> History<D> {
    ghost use Rattle.std.specs.Borrow.{sem, Lends, LendsIfOk};
    ghost use Rattle.ped_history.specs.contracts.entries.History.{the_row};

    /// A history without past and future, which takes no memory.
    pub fn new(alloc: Global) -> Self
        ensures { result ≡ timeline [] [] 0 }
    {
        History {
            entries: Vec::new(alloc),
            at: 0,
        }
    }

    /// Makes the room for one more entry, and for every later step. Memory is taken only where there is
    /// no room; if it runs out, the history is as it was.
    pub fn reserve(&mut self) -> Result<(), NoMemory>
        ensures past { self.new.past ≡ self.old.past }
        ensures future { self.new.future ≡ self.old.future }
        ensures room { OnOk result (1 ≤ self.new.spare) }
        ensures kept { self.old.spare ≤ self.new.spare }
        ensures refused { OnErr result (self.old.spare ≡ 0) }
        ensures err { OnErr result (self.new ≡ self.old) }
    {
        if self.at < self.entries.capacity() {
            return Ok(());
        }
        self.entries.reserve(1)?;
        Ok(())
    }

    /// Adds an entry to the past and drops the future. It takes no memory.
    pub fn push(&mut self, entry: D)
    where
        D: Drop,
        requires { 1 ≤ self.old.spare }
        ensures { self.new ≡ pushed entry self.old }
    {
        self.entries.truncate(self.at);
        self.entries.push_reserved(entry);
        self.at += 1;
    }

    /// Goes one entry back: the newest of the past becomes the next of the future, and may be changed
    /// there. It takes no memory. The history is as it was where there is no past.
    pub fn back(&mut self) -> Result<&mut D, NothingToUndo>
        ensures* writes_back { sem 𝓛 (LendsIfOk (the_row D.row) D.row self.entry result (gone_back self.old) self.old) }
        ensures newest { IfOk result (λ d. slice_get self.old.past 0 ≡ Some d.now) }
        ensures refused { OnErr result (self.old.past ≡ []) }
    {
        if self.at == 0 {
            return Err(NothingToUndo);
        }
        self.at -= 1;
        Ok(&mut self.entries[self.at])
    }

    /// Goes one entry forward: the next of the future becomes the newest of the past, and may be changed
    /// there. It takes no memory. The history is as it was where there is no future.
    pub fn forward(&mut self) -> Result<&mut D, NothingToRedo>
        ensures* writes_back { sem 𝓛 (LendsIfOk (the_row D.row) D.row self.entry result (gone_forward self.old) self.old) }
        ensures next { IfOk result (λ d. slice_get self.old.future 0 ≡ Some d.now) }
        ensures refused { OnErr result (self.old.future ≡ []) }
    {
        let next = self.at;
        if next == self.entries.len() {
            return Err(NothingToRedo);
        }
        self.at += 1;
        Ok(&mut self.entries[next])
    }
}
