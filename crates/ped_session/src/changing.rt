//! Accepted changes: a valid program becomes the present one.

ghost use Rattle.std.specs.Prelude.{◌≡◌, ◌+◌, ◌≤◌, IfOk, OnErr};
ghost use Rattle.ped_tree.specs.Tree.{ProgramTree};
ghost use Rattle.ped_tree.specs.Views.{program_tree};
ghost use Rattle.ped_tree.specs.Printing.{program_text};
ghost use Rattle.ped_versions.specs.ped_valid.specs.ped_symbols.specs.NameRefusals.{IsValid};
ghost use Rattle.ped_versions.specs.ped_valid.specs.ped_symbols.specs.Kinds.{table_of};
ghost use Rattle.ped_versions.specs.ped_valid.specs.Validity.{ReadsValid};
ghost use Rattle.ped_transformations.specs.ped_graph.specs.Keeping.{IsOneToOne};
ghost use Rattle.ped_versions.specs.ped_update.specs.Fresh.{tested_pairs};
ghost use Rattle.ped_session.specs.Changing.{Changes};
ghost use Rattle.ped_session.specs.Meanings.{IsKept};
ghost use Rattle.ped_session.specs.Scripts.{tests_of};

use crate::replies::Reply;
use crate::session::Session;
use ped_base::NoMemory;
use ped_order::Keep;
use ped_verdict::Steps;
use ped_versions::{ChangeKind, Opened};
use std::alloc::Global;
use std::sync::ledger::Ledger;

impl<L: Ledger> Session<L> {
    /// Makes a valid program the present one by a change of this kind that keeps these statements.
    pub(crate) fn change(
        &mut self,
        alloc: Global,
        new: Opened,
        keep: &Keep,
        change: ChangeKind,
        steps: &mut Steps<L>,
    ) -> Result<Reply, NoMemory>
        requires valid { IsValid (program_tree new.program) }
        requires symbols { new.symbols ≡ table_of (program_tree new.program) }
        requires one_to_one { IsOneToOne keep.now }
        requires meaning { IsKept change self.old.present (program_text (program_tree new.program)) }
        ensures answers { IfOk result (λ reply. Changes (program_tree new.program) keep.now change self.old reply self.new) }
        ensures kept { OnErr result (self.new ≡ self.old) }
        ensures ticks { IfOk result (λ reply. steps.new ≡ steps.old + tests_of reply self.new) }
        ensures least { steps.old ≤ steps.new }
        ensures most { (old : ProgramTree) → ReadsValid self.old.present old → steps.new ≤ steps.old + tested_pairs old (program_tree new.program) keep.now }
    {
        self.versions.change(alloc, new, keep, change, steps)?;
        Ok(Reply::Changed)
    }
}
