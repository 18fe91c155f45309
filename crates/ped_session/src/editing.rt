//! Edits: lines of the present source are removed, others inserted, and the result is read afresh.

ghost use Rattle.std.specs.Prelude.{◌≡◌, ◌+◌, ◌≤◌, IfOk, OnErr};
ghost use Rattle.ped_tree.specs.Tree.{ProgramTree};
ghost use Rattle.ped_tree.specs.Views.{program_tree};
ghost use Rattle.ped_versions.specs.ped_valid.specs.ped_symbols.specs.NameRefusals.{IsValid};
ghost use Rattle.ped_versions.specs.ped_valid.specs.ped_symbols.specs.Kinds.{table_of};
ghost use Rattle.ped_versions.specs.ped_valid.specs.Validity.{ReadsValid};
ghost use Rattle.ped_versions.specs.ped_update.specs.Fresh.{tested_pairs};
ghost use Rattle.ped_session.specs.Changing.{EditChanges};
ghost use Rattle.ped_session.specs.declared.replies.Reply.{Reply};
ghost use Rattle.ped_versions.specs.States.{State};
ghost use Rattle.ped_versions.specs.Splices as Splices;
ghost use Rattle.ped_session.specs.Steps.{Edits, Replaces, Inserts};
ghost use Rattle.ped_session.specs.Scripts.{tests_of};

use crate::replies::{Refusal, Reply};
use crate::session::Session;
use ped_base::{Bytes, NoMemory};
use ped_verdict::Steps;
use ped_versions::{OpenRefusal, Opened, line_count, open_program, spliced};
use std::alloc::Global;
use std::sync::ledger::Ledger;

impl<L: Ledger> Session<L> {
    /// Puts lines in the place of others, which count from 1.
    pub(crate) fn replace(
        &mut self,
        alloc: Global,
        first: u64,
        last: u64,
        lines: &[Bytes],
        steps: &mut Steps<L>,
    ) -> Result<Reply, NoMemory>
        ensures answers { IfOk result (λ reply. Replaces first last lines.now self.old reply self.new) }
        ensures kept { OnErr result (self.new ≡ self.old) }
        ensures ticks { IfOk result (λ reply. steps.new ≡ steps.old + tests_of reply self.new) }
        ensures least { steps.old ≤ steps.new }
        ensures most { (reply : Reply) (next : State) → Replaces first last lines.now self.old reply next → steps.new ≤ steps.old + tests_of reply next }
    {
        if !are_lines(self.source(), first, last) {
            return Ok(Reply::Refused(Refusal::NoSuchLine));
        }
        self.splice(alloc, first - 1, last - first + 1, lines, steps)
    }

    /// Puts lines after a line, or before the first for 0.
    pub(crate) fn insert(
        &mut self,
        alloc: Global,
        after: u64,
        lines: &[Bytes],
        steps: &mut Steps<L>,
    ) -> Result<Reply, NoMemory>
        ensures answers { IfOk result (λ reply. Inserts after lines.now self.old reply self.new) }
        ensures kept { OnErr result (self.new ≡ self.old) }
        ensures ticks { IfOk result (λ reply. steps.new ≡ steps.old + tests_of reply self.new) }
        ensures least { steps.old ≤ steps.new }
        ensures most { (reply : Reply) (next : State) → Inserts after lines.now self.old reply next → steps.new ≤ steps.old + tests_of reply next }
    {
        if !is_place(self.source(), after) {
            return Ok(Reply::Refused(Refusal::NoSuchLine));
        }
        self.splice(alloc, after, 0, lines, steps)
    }

    /// Keeps `kept` lines at the front, puts the given lines in the place of the next `gone` ones, and reads what
    /// results.
    fn splice(
        &mut self,
        alloc: Global,
        kept: u64,
        gone: u64,
        lines: &[Bytes],
        steps: &mut Steps<L>,
    ) -> Result<Reply, NoMemory>
        ensures answers { IfOk result (λ reply. Edits kept gone (Splices.spliced self.old.present kept gone lines.now) self.old reply self.new) }
        ensures kept { OnErr result (self.new ≡ self.old) }
        ensures ticks { IfOk result (λ reply. steps.new ≡ steps.old + tests_of reply self.new) }
        ensures least { steps.old ≤ steps.new }
        ensures most { (reply : Reply) (next : State) → Edits kept gone (Splices.spliced self.old.present kept gone lines.now) self.old reply next → steps.new ≤ steps.old + tests_of reply next }
    {
        let text = spliced(alloc, self.source(), kept, gone, lines)?;
        match open_program(alloc, text.as_slice()) {
            Ok(opened) => return self.edit(alloc, opened, kept, gone, steps),
            Err(OpenRefusal::At(why)) => return Ok(Reply::Refused(Refusal::BadEdit(why))),
            Err(OpenRefusal::NoMemory) => return Err(NoMemory),
        }
    }

    /// Makes what an edit reads as the present program; `kept` lines of the former source were kept at the front, and
    /// `gone` lines went.
    fn edit(
        &mut self,
        alloc: Global,
        new: Opened,
        kept: u64,
        gone: u64,
        steps: &mut Steps<L>,
    ) -> Result<Reply, NoMemory>
        requires valid { IsValid (program_tree new.program) }
        requires symbols { new.symbols ≡ table_of (program_tree new.program) }
        ensures answers { IfOk result (λ reply. EditChanges (program_tree new.program) kept gone self.old reply self.new) }
        ensures kept { OnErr result (self.new ≡ self.old) }
        ensures ticks { IfOk result (λ reply. steps.new ≡ steps.old + tests_of reply self.new) }
        ensures least { steps.old ≤ steps.new }
        ensures most { (old : ProgramTree) → ReadsValid self.old.present old → steps.new ≤ steps.old + tested_pairs old (program_tree new.program) (Splices.edit_keep old (program_tree new.program) kept gone) }
    {
        self.versions.edit(alloc, new, kept, gone, steps)?;
        Ok(Reply::Changed)
    }
}

/// Whether these are the numbers of a first and a last line of the text.
fn are_lines(text: &[u8], first: u64, last: u64) -> bool
    ensures { result ≡ Splices.are_lines text.now first last }
{
    1 <= first && first <= last && last <= line_count(text)
}

/// Whether this is the number of a line of the text, or 0 for its front.
fn is_place(text: &[u8], after: u64) -> bool
    ensures { result ≡ Splices.is_place text.now after }
{
    after <= line_count(text)
}
