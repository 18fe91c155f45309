//! The frame and verdicts of another program, for which a graph exchanges its own.

ghost use Rattle.std.specs.Prelude.{◌≡◌, ◌<◌, map, length, Some, None, IfOk, is_some, true};
ghost use Rattle.std.specs.List.{All};
ghost use Rattle.ped_graph.specs.CodeParts.{exchanged};
ghost use Rattle.ped_graph.specs.Parts.{turned};

use crate::frames::Frame;
use ped_base::NoMemory;
use ped_verdict::Verdict;
use std::alloc::Global;
use std::marker::Model;
use std::mem;
use std::sync::ledger::Ledger;

/// A place for the verdict of a pair. Contracts see the view that was tested, none where the place is empty.
#[derive(Drop)]
pub struct Slot<L: Ledger> {
    verdict: Option<Box<Verdict<L>>>,
}

impl<L: Ledger> Model for Slot<L> {
    ghost use Rattle.std.specs.Prelude.{Option, option_map};
    ghost use Rattle.ped_views.specs.Views.{View};

    ghost Value = { Option View };

    ghost view = { λ s. option_map (λ b. b.value) s.verdict };
}

impl<L: Ledger> Slot<L> {
    /// A place without a verdict.
    pub fn empty() -> Slot<L>
        ensures { result ≡ None }
    {
        Slot { verdict: None }
    }

    /// A place with a verdict.
    pub fn full(alloc: Global, verdict: Verdict<L>) -> Result<Slot<L>, NoMemory>
        ensures { IfOk result (λ slot. slot ≡ Some verdict) }
    {
        let verdict = Box::new(alloc, verdict)?;
        Ok(Slot {
            verdict: Some(verdict),
        })
    }

    /// The verdict at a place that isn't empty.
    pub fn verdict(&self) -> &Verdict<L>
        requires { is_some self.now ≡ true }
        ensures { self.now ≡ Some result.now }
    {
        match &self.verdict {
            Some(verdict) => verdict,
            None => unreachable!(),
        }
    }
}

/// A pair that has the same view in two programs, by its places in their orders of pairs, which count from 0.
#[derive(Clone, Copy)]
pub struct Kept {
    /// Its place in the graph.
    pub here: u64,
    /// Its place in the other program.
    pub there: u64,
}

/// What a graph exchanges for its own: the frame of another program, a place for the verdict of each of its pairs,
/// and the pairs that keep the verdict that the graph has.
#[derive(Drop)]
pub struct Parts<L: Ledger> {
    /// The frame of the other program.
    pub frame: Frame,
    /// For each of its pairs the verdict, empty where it is kept.
    pub slots: Vec<Slot<L>>,
    /// The pairs that keep their verdicts.
    pub kept: Vec<Kept>,
}

impl<L: Ledger> Model for Parts<L> {
    ghost use Rattle.ped_graph.specs.Parts.{HeldParts};

    ghost Value = { HeldParts };

    ghost view = { λ p. record { frame = p.frame; slots = p.slots.items; kept = p.kept.items } };
}

impl<L: Ledger> Parts<L> {
    ghost use Rattle.std.specs.Prelude.{[]};

    /// This frame, without a place for a verdict yet. It takes no memory.
    pub fn new(alloc: Global, frame: Frame) -> Parts<L>
        ensures { result ≡ record { frame = frame; slots = []; kept = [] } }
    {
        Parts {
            frame,
            slots: Vec::new(alloc),
            kept: Vec::new(alloc),
        }
    }
}

/// Exchanges the places of the pairs that keep their verdicts.
pub(crate) fn exchange_kept<L: Ledger>(
    verdicts: &mut [Slot<L>],
    slots: &mut [Slot<L>],
    kept: &[Kept],
)
    requires here { All (λ k. k.here < length verdicts.old) kept.now }
    requires there { All (λ k. k.there < length slots.old) kept.now }
    ensures verdicts { verdicts.new ≡ (exchanged kept.now verdicts.old slots.old).0 }
    ensures slots { slots.new ≡ (exchanged kept.now verdicts.old slots.old).1 }
{
    for pair in kept {
        mem::swap(
            &mut verdicts[pair.here as usize],
            &mut slots[pair.there as usize],
        );
    }
}

/// Exchanges both places of each of these pairs.
pub(crate) fn turn(kept: &mut [Kept])
    ensures { kept.new ≡ map turned kept.old }
{
    for i in 0..kept.len() {
        let pair = kept[i];
        kept[i] = Kept {
            here: pair.there,
            there: pair.here,
        };
    }
}
