//! The marks of the iterations of one loop.

ghost use Rattle.std.specs.Prelude.{◌≡◌, ℕ, ◌<◌, ◌≤◌, length, true, false, MatchOption, OnOk, OnErr, if◌then◌else◌, ◌==◌};
ghost use Rattle.ped_marks.specs.Marks.{at, is_done, is_running};
ghost use Rattle.ped_marks.specs.declared.marks.Mark.TheVariants.{Waits, Running, Done};

use crate::stretches::{
    Stretch, end_from, first_open, last_up_to, mark_by, replace, start_up_to, take_out,
};
use ped_base::NoMemory;
use std::alloc::Global;
use std::collections::BTreeMap;
use std::marker::Model;

/// The state of an iteration.
#[derive(Clone, Copy, Drop)]
pub enum Mark {
    /// It hasn't begun.
    Waits,
    /// It has begun, and its task has this key.
    Running(usize),
    /// It is finished.
    Done,
}

/// The state of each iteration of a loop, by its place, from 0.
#[derive(Drop)]
pub struct Marks {
    map: BTreeMap<u64, Stretch>,
    count: u64,
}

impl Model for Marks {
    ghost use Rattle.std.specs.Ordering.{nat_cmp};
    ghost use Rattle.std.specs.Prelude.{List};
    ghost use Rattle.std.specs.BTreeMap.{get};
    ghost use Rattle.ped_marks.specs.declared.marks.Mark as marks;
    ghost use Rattle.ped_marks.specs.Stretches.{marks_of, IsLaidOut};

    ghost Value = { List marks.Mark };

    ghost view = { λ m. marks_of m.count (get nat_cmp m.map) };

    ghost invariant = { λ m. IsLaidOut m.count (get nat_cmp m.map) };
}

impl Marks {
    /// The marks of a loop that has just been opened: all of its iterations wait.
    pub fn new(alloc: Global, count: u64) -> Marks
        ensures count { length result ≡ count }
        ensures waits { (k : ℕ) → at result k ≡ Waits }
    {
        Marks {
            map: BTreeMap::new(alloc),
            count,
        }
    }

    /// The state of the iteration at a place.
    pub fn at(&self, place: u64) -> Mark
        requires { place < length self.now }
        ensures { result ≡ at self.now place }
    {
        mark_by(last_up_to(&self.map, place), place)
    }

    /// The first place from `place` on whose iteration isn't finished, without wrapping around.
    pub fn unfinished(&self, place: u64) -> Option<u64>
        ensures { MatchOption result ((k : ℕ) → place ≤ k → k < length self.now → at self.now k ≡ Done)
            (λ j. (place ≤ j) × (j < length self.now) × (is_done (at self.now j) ≡ false)
            × ((k : ℕ) → place ≤ k → k < j → at self.now k ≡ Done)) }
    {
        let first = first_open(last_up_to(&self.map, place), place);
        if first < self.count {
            Some(first)
        } else {
            None
        }
    }

    /// Marks an iteration that waits as running, with the key of its task.
    ///
    /// # Errors
    ///
    /// Out of memory; then all is as it was.
    pub fn start(&mut self, place: u64, key: usize) -> Result<(), NoMemory>
        requires place { place < length self.old }
        requires waits { at self.old place ≡ Waits }
        ensures count { length self.new ≡ length self.old }
        ensures ok { OnOk result ((k : ℕ) → at self.new k ≡ (if k == place then Running key else at self.old k)) }
        ensures err { OnErr result (self.new ≡ self.old) }
    {
        self.map.insert(place, Stretch::Running(key))?;
        Ok(())
    }

    /// Marks an iteration that is running as finished. It takes no memory: an existing entry becomes
    /// a stretch, and those that it touches are joined to it.
    pub fn finish(&mut self, place: u64)
        requires place { place < length self.old }
        requires running { is_running (at self.old place) ≡ true }
        ensures count { length self.new ≡ length self.old }
        ensures at { (k : ℕ) → at self.new k ≡ (if k == place then Done else at self.old k) }
    {
        let start = start_up_to(&self.map, place);
        let end = end_from(&self.map, place + 1);
        take_out(&mut self.map, place + 1, end);
        take_out(&mut self.map, place, start);
        replace(&mut self.map, start, Stretch::Done(end));
    }
}
