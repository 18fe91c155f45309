//! What the paths of a part of a program do to each of many scalars, and how this is put together from parts.

ghost use Rattle.ped_flow.specs.RowWidths.{AreWide};

use crate::row_steps::{all_places, common, copied, less};
use ped_base::NoMemory;
use ped_bits::Row;
use std::alloc::Global;

/// What the paths of a part of a program do to each of many scalars: each place gives for its scalar what a `Summary`
/// gives for one, except which statement reads it first.
#[derive(Drop)]
pub(crate) struct RowSummary {
    /// How many scalars there are.
    pub(crate) width: usize,
    /// The scalars that a statement reads on some path before they are overwritten.
    pub(crate) reads: Row,
    /// Those that each path that goes on overwrites.
    pub(crate) overwritten: Row,
    /// Those that some path that ends, at a STOP, doesn't overwrite.
    pub(crate) ends: Row,
    /// All, where no path goes on, and else none.
    pub(crate) blocked: Row,
    /// Those that some path that goes on overwrites so that they have no value at the end.
    pub(crate) loses: Row,
    ghost even: { AreWide width reads overwritten ends blocked loses },
}

impl RowSummary {
    ghost use Rattle.std.specs.Prelude.{◌≡◌, ◌<◌, ◌+◌, ℕ, length, not, false, is_some, IfOk, OnOk, IsTrue, ◌↔◌, if◌then◌else◌};
    ghost use Rattle.ped_flow.specs.Events as Event;
    ghost use Rattle.ped_flow.specs.Summaries as Spec;
    ghost use Rattle.ped_flow.specs.RowPlaces.{bit};
    ghost use Rattle.ped_flow.specs.Rows.{Holds};
    ghost use Rattle.ped_flow.specs.declared.summaries.Summary.{Summary};

    /// Paths that go on, on which these scalars are read and then those overwritten by a value.
    pub(crate) fn of_events(
        alloc: Global,
        reads: Row,
        overwritten: Row,
    ) -> Result<RowSummary, NoMemory>
        requires { length reads ≡ length overwritten }
        ensures width { IfOk result (λ r. r.width ≡ length reads) }
        ensures held { IfOk result (λ r. (i : ℕ) (m : Summary) → bit reads i ≡ is_some m.first → bit overwritten i ≡ not m.keeps → m.ends ≡ false → not m.passes ≡ false → m.loses ≡ false → Holds r i m) }
    {
        let width = reads.width();
        let ends = Row::new(alloc, width)?;
        let blocked = Row::new(alloc, width)?;
        let loses = Row::new(alloc, width)?;
        Ok(RowSummary {
            width,
            reads,
            overwritten,
            ends,
            blocked,
            loses,
        })
    }

    /// A path on which nothing happens to the scalars.
    pub(crate) fn passing(alloc: Global, width: usize) -> Result<RowSummary, NoMemory>
        ensures width { IfOk result (λ r. r.width ≡ width) }
        ensures held { IfOk result (λ r. (i : ℕ) → Holds r i Spec.passing) }
    {
        let reads = Row::new(alloc, width)?;
        let overwritten = Row::new(alloc, width)?;
        let ends = Row::new(alloc, width)?;
        let blocked = Row::new(alloc, width)?;
        let loses = Row::new(alloc, width)?;
        Ok(RowSummary {
            width,
            reads,
            overwritten,
            ends,
            blocked,
            loses,
        })
    }

    /// Paths that go on, on which these scalars lose their values.
    pub(crate) fn cleared(alloc: Global, cleared: &Row) -> Result<RowSummary, NoMemory>
        ensures width { IfOk result (λ r. r.width ≡ length cleared.now) }
        ensures held { IfOk result (λ r. (i : ℕ) → Holds r i (if bit cleared.now i then Spec.of_manner Event.clears 0 else Spec.passing)) }
    {
        let mut part = RowSummary::passing(alloc, cleared.width())?;
        cleared.or_into(&mut part.overwritten);
        cleared.or_into(&mut part.loses);
        Ok(part)
    }

    /// The path of a STOP.
    pub(crate) fn stopped(alloc: Global, width: usize) -> Result<RowSummary, NoMemory>
        ensures width { IfOk result (λ r. r.width ≡ width) }
        ensures held { IfOk result (λ r. (i : ℕ) → i < width → Holds r i Spec.stopped) }
    {
        let reads = Row::new(alloc, width)?;
        let overwritten = all_places(alloc, width)?;
        let ends = all_places(alloc, width)?;
        let blocked = all_places(alloc, width)?;
        let loses = Row::new(alloc, width)?;
        Ok(RowSummary {
            width,
            reads,
            overwritten,
            ends,
            blocked,
            loses,
        })
    }

    /// This part and then another.
    pub(crate) fn then(&mut self, alloc: Global, next: &RowSummary) -> Result<(), NoMemory>
        requires { self.old.width ≡ next.now.width }
        ensures width { self.new.width ≡ self.old.width }
        ensures held { OnOk result ((i : ℕ) (a b : Summary) → Holds self.old i a → Holds next.now i b → Holds self.new i (Spec.summary_in_turn a b)) }
    {
        let reads = less(alloc, &next.reads, &self.overwritten)?;
        let ends = less(alloc, &next.ends, &self.overwritten)?;
        let loses = less(alloc, &next.loses, &self.blocked)?;
        reads.or_into(&mut self.reads);
        ends.or_into(&mut self.ends);
        next.overwritten.and_not_into(&mut self.loses);
        loses.or_into(&mut self.loses);
        next.overwritten.or_into(&mut self.overwritten);
        next.blocked.or_into(&mut self.blocked);
        Ok(())
    }

    /// This part and then another, where there is memory for both.
    pub(crate) fn followed(self, alloc: Global, next: &RowSummary) -> Result<RowSummary, NoMemory>
        requires { self.width ≡ next.now.width }
        ensures width { IfOk result (λ r. r.width ≡ self.width) }
        ensures held { IfOk result (λ r. (i : ℕ) (a b : Summary) → Holds self i a → Holds next.now i b → Holds r i (Spec.summary_in_turn a b)) }
    {
        let mut both = self;
        match both.then(alloc, next) {
            Ok(()) => {
                return Ok(both);
            }
            Err(error) => {
                drop(both);
                return Err(error);
            }
        }
    }

    /// Any number of trips through this part, and then another.
    pub(crate) fn trips(&self, alloc: Global, next: &RowSummary) -> Result<RowSummary, NoMemory>
        requires { self.now.width ≡ next.now.width }
        ensures width { IfOk result (λ r. r.width ≡ self.now.width) }
        ensures held { IfOk result (λ r. (i : ℕ) (a b : Summary) → Holds self.now i a → Holds next.now i b → Holds r i (Spec.summary_in_turn (Spec.summary_trips a) b)) }
    {
        let trips = self.repeated(alloc)?;
        trips.followed(alloc, next)
    }

    /// Either this part or another.
    pub(crate) fn or(&mut self, alloc: Global, other: &RowSummary) -> Result<(), NoMemory>
        requires { self.old.width ≡ other.now.width }
        ensures width { self.new.width ≡ self.old.width }
        ensures held { OnOk result ((i : ℕ) (a b : Summary) → Holds self.old i a → Holds other.now i b → Holds self.new i (Spec.summary_either a b)) }
    {
        let overwritten = common(alloc, &self.overwritten, &other.overwritten)?;
        let blocked = common(alloc, &self.blocked, &other.blocked)?;
        other.reads.or_into(&mut self.reads);
        other.ends.or_into(&mut self.ends);
        other.loses.or_into(&mut self.loses);
        self.overwritten = overwritten;
        self.blocked = blocked;
        Ok(())
    }

    /// Any number of trips through this part.
    pub(crate) fn repeated(&self, alloc: Global) -> Result<RowSummary, NoMemory>
        ensures width { IfOk result (λ r. r.width ≡ self.now.width) }
        ensures held { IfOk result (λ r. (i : ℕ) (a : Summary) → Holds self.now i a → Holds r i (Spec.summary_trips a)) }
    {
        let mut trips = RowSummary::passing(alloc, self.width)?;
        self.reads.or_into(&mut trips.reads);
        self.ends.or_into(&mut trips.ends);
        self.loses.or_into(&mut trips.loses);
        Ok(trips)
    }
}
