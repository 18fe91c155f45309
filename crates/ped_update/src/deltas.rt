//! What takes a changed graph back to its former state, and forward again.

ghost use Rattle.std.specs.Prelude.{◌≡◌};
ghost use Rattle.ped_graph.specs.Held.{Held};
ghost use Rattle.ped_update.specs.Deltas.{TakesTo, IsSwap};

use ped_graph::{Graph, Parts};
use std::marker::Model;
use std::sync::ledger::Ledger;

/// The step between two states of a graph. It belongs to one of them, and `swap` takes the graph to the other.
#[derive(Drop)]
pub struct Delta<L: Ledger> {
    parts: Parts<L>,
    tested: u64,
}

impl<L: Ledger> Model for Delta<L> {
    ghost use Rattle.ped_update.specs.Deltas.{HeldDelta};

    ghost Value = { HeldDelta };

    ghost view = { λ d. record { parts = d.parts; tested = d.tested } };
}

impl<L: Ledger> Delta<L> {
    /// The step by these parts, of a change that tested this many pairs.
    pub(crate) fn new(parts: Parts<L>, tested: u64) -> Delta<L>
        ensures parts { result.parts ≡ parts }
        ensures tested { result.tested ≡ tested }
    {
        Delta { parts, tested }
    }

    /// How many pairs of references the change tested that this step belongs to.
    pub fn tested(&self) -> u64
        ensures { result ≡ self.now.tested }
    {
        self.tested
    }
}

/// Takes a graph to the other state of a step that belongs to it; the step then belongs to that state and leads
/// back. It takes no memory and tests nothing.
pub fn swap<L: Ledger>(graph: &mut Graph<L>, delta: &mut Delta<L>)
    requires belongs { (other : Held) × TakesTo delta.old graph.old other }
    ensures swapped { IsSwap delta.old graph.old delta.new graph.new }
    ensures tested { delta.new.tested ≡ delta.old.tested }
{
    graph.exchange(&mut delta.parts);
}
