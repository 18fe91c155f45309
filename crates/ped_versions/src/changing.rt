//! Accepted changes: a valid program becomes the present one.

ghost use Rattle.std.specs.Prelude.{◌≡◌, ◌+◌, ◌≤◌, OnOk, OnErr};
ghost use Rattle.ped_tree.specs.Tree.{ProgramTree};
ghost use Rattle.ped_tree.specs.Views.{program_tree};
ghost use Rattle.ped_valid.specs.ped_symbols.specs.NameRefusals.{IsValid};
ghost use Rattle.ped_valid.specs.ped_symbols.specs.Kinds.{table_of};
ghost use Rattle.ped_valid.specs.Validity.{ReadsValid};
ghost use Rattle.ped_update.specs.ped_graph.specs.Held.{held_of};
ghost use Rattle.ped_update.specs.Deltas.{TakesTo};
ghost use Rattle.ped_update.specs.ped_graph.specs.Keeping.{IsOneToOne};
ghost use Rattle.ped_update.specs.Fresh.{tested_pairs};
ghost use Rattle.ped_versions.specs.Changing.{Changes};
ghost use Rattle.ped_versions.specs.Holding.{tree_of, led_by, IsWay};

use crate::changes::ChangeKind;
use crate::versions::{Apart, Entry, Version, Versions, Way};
use ped_base::NoMemory;
use ped_print::print;
use ped_update::{Delta, Keep, update};
use ped_valid::Opened;
use ped_verdict::Steps;
use std::alloc::Global;
use std::mem::replace;
use std::sync::ledger::Ledger;

impl<L: Ledger> Versions<L> {
    /// Makes a valid program the present one by a change of this kind that keeps these statements. All memory is taken
    /// before anything changes. If memory runs out, no more pairs were tested than the change tests.
    pub fn change(
        &mut self,
        alloc: Global,
        new: Opened,
        keep: &Keep,
        change: ChangeKind,
        steps: &mut Steps<L>,
    ) -> Result<(), NoMemory>
        requires valid { IsValid (program_tree new.program) }
        requires symbols { new.symbols ≡ table_of (program_tree new.program) }
        requires one_to_one { IsOneToOne keep.now }
        ensures changes { OnOk result (Changes (program_tree new.program) keep.now change self.old self.new) }
        ensures kept { OnErr result (self.new ≡ self.old) }
        ensures ticks { OnOk result (steps.new ≡ steps.old + self.new.tested) }
        ensures least { steps.old ≤ steps.new }
        ensures most { (old : ProgramTree) → ReadsValid self.old.present old → steps.new ≤ steps.old + tested_pairs old (program_tree new.program) keep.now }
    {
        let text = print(alloc, &new.program)?;
        self.history.reserve()?;
        let consts = new.symbols.consts();
        let delta = update(alloc, &mut self.graph, &new.program, consts, keep, steps)?;
        self.tested = delta.tested();
        let version = Version {
            program: new.program,
            symbols: new.symbols,
            text,
        };
        let other = replace(&mut self.present, version);
        self.history.push(entry_to(other, change, delta));
        Ok(())
    }
}

/// An entry that leads to this program by this step of the graph.
fn entry_to<L: Ledger>(other: Version, change: ChangeKind, delta: Delta<L>) -> Entry<L>
    ensures text { result.text ≡ other.text }
    ensures change { result.change ≡ change }
    ensures program { (t : ProgramTree) → led_by result.way t ≡ tree_of other }
    ensures way { (t : ProgramTree) → other.symbols ≡ table_of (tree_of other) → TakesTo delta (held_of t) (held_of (tree_of other)) → IsWay result.way t }
{
    Entry {
        text: other.text,
        change,
        way: Way::Apart(Apart {
            program: other.program,
            symbols: other.symbols,
            delta,
        }),
    }
}
