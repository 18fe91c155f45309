//! Edits: what is read of the present source with other lines becomes the present program.

ghost use Rattle.std.specs.Prelude.{◌≡◌, ◌+◌, ◌≤◌, OnOk, OnErr};
ghost use Rattle.ped_tree.specs.Tree.{ProgramTree};
ghost use Rattle.ped_tree.specs.Views.{program_tree};
ghost use Rattle.ped_valid.specs.ped_symbols.specs.NameRefusals.{IsValid};
ghost use Rattle.ped_valid.specs.ped_symbols.specs.Kinds.{table_of};
ghost use Rattle.ped_valid.specs.Validity.{ReadsValid};
ghost use Rattle.ped_update.specs.Fresh.{tested_pairs};
ghost use Rattle.ped_versions.specs.Changing.{EditChanges};
ghost use Rattle.ped_versions.specs.Splices as Splices;

use crate::changes::ChangeKind;
use crate::keeping::edit_keep;
use crate::versions::Versions;
use ped_base::NoMemory;
use ped_valid::Opened;
use ped_verdict::Steps;
use std::alloc::Global;
use std::sync::ledger::Ledger;

impl<L: Ledger> Versions<L> {
    /// Makes what an edit reads as the present program; `kept` lines of the former source were kept at the front, and
    /// `gone` lines went. If memory runs out, no more pairs were tested than the change tests.
    pub fn edit(
        &mut self,
        alloc: Global,
        new: Opened,
        kept: u64,
        gone: u64,
        steps: &mut Steps<L>,
    ) -> Result<(), NoMemory>
        requires valid { IsValid (program_tree new.program) }
        requires symbols { new.symbols ≡ table_of (program_tree new.program) }
        ensures changes { OnOk result (EditChanges (program_tree new.program) kept gone self.old self.new) }
        ensures kept { OnErr result (self.new ≡ self.old) }
        ensures ticks { OnOk result (steps.new ≡ steps.old + self.new.tested) }
        ensures least { steps.old ≤ steps.new }
        ensures most { (old : ProgramTree) → ReadsValid self.old.present old → steps.new ≤ steps.old + tested_pairs old (program_tree new.program) (Splices.edit_keep old (program_tree new.program) kept gone) }
    {
        let keep = edit_keep(alloc, &self.present.program, &new.program, kept, gone)?;
        self.change(alloc, new, &keep, ChangeKind::Edit, steps)
    }
}
