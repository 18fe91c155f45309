//! Notes of a statement: its accesses without their places.

ghost use Rattle.std.specs.Prelude.{◌≡◌, [], true, false, not};
ghost use Rattle.ped_store.specs.CellViews.{cell_view};
ghost use Rattle.ped_eval.specs.Noting.{noted_by, HasReferred, HasTouched};

use crate::watches::Watch;
use ped_store::Cell;
use std::alloc::Global;

/// An access, of which the place isn't said.
#[derive(Clone, Copy)]
pub struct Noted {
    /// The cell.
    pub cell: Cell,
    /// Whether it is a write.
    pub writes: bool,
    /// The number of the reference, 0 where none makes the access.
    pub reference: u32,
}

/// The accesses of a statement, in order, as far as somebody keeps them. Noting never fails: where there is no memory for
/// an access, the notes are kept no longer.
#[derive(Drop)]
pub struct Notes {
    /// The accesses.
    pub(crate) touches: Vec<Noted>,
    /// The number of the next reference.
    pub(crate) next: u32,
    /// Whether all accesses so far are here.
    pub(crate) kept: bool,
}

impl Notes {
    /// No accesses yet; the next reference has this number. They are kept.
    pub fn from_reference(alloc: Global, next: u32) -> Notes
        ensures touches { noted_by result ≡ [] }
        ensures next { result.next ≡ next }
        ensures kept { result.kept ≡ true }
    {
        Notes {
            touches: Vec::new(alloc),
            next,
            kept: true,
        }
    }

    /// Notes that nobody keeps; they take no memory.
    pub fn unkept(alloc: Global) -> Notes
        ensures { result.kept ≡ false }
    {
        Notes {
            touches: Vec::new(alloc),
            next: 1,
            kept: false,
        }
    }

    /// No accesses of a statement yet. They are kept unless the watch keeps nothing.
    pub(crate) fn of_statement<W: Watch>(alloc: Global, watch: &W) -> Notes
        ensures touches { noted_by result ≡ [] }
        ensures next { result.next ≡ 1 }
        ensures kept { result.kept ≡ not (W.is_idle watch.now) }
    {
        Notes {
            touches: Vec::new(alloc),
            next: 1,
            kept: !watch.keeps_nothing(),
        }
    }

    /// Notes an access that the next reference makes. There is no memory for more of them than numbers.
    pub(crate) fn refer(&mut self, cell: &Cell, writes: bool)
        ensures { HasReferred self.old (cell_view cell.now) writes self.new }
    {
        if self.kept {
            self.add_reference(cell, writes);
        }
    }

    /// Adds an access that the next reference makes.
    fn add_reference(&mut self, cell: &Cell, writes: bool)
        requires { self.old.kept ≡ true }
        ensures { HasReferred self.old (cell_view cell.now) writes self.new }
    {
        if self.next == u32::MAX {
            self.kept = false;
            return;
        }
        let access = Noted {
            cell: *cell,
            writes,
            reference: self.next,
        };
        match self.touches.push(access) {
            Ok(()) => self.next += 1,
            Err(_) => self.kept = false,
        }
    }

    /// Notes an access that no reference makes.
    pub(crate) fn touch(&mut self, cell: &Cell, writes: bool)
        ensures { HasTouched self.old (cell_view cell.now) writes self.new }
    {
        if self.kept {
            self.add_touch(cell, writes);
        }
    }

    /// Adds an access that no reference makes.
    fn add_touch(&mut self, cell: &Cell, writes: bool)
        requires { self.old.kept ≡ true }
        ensures { HasTouched self.old (cell_view cell.now) writes self.new }
    {
        let access = Noted {
            cell: *cell,
            writes,
            reference: 0,
        };
        match self.touches.push(access) {
            Ok(()) => {}
            Err(_) => self.kept = false,
        }
    }
}
