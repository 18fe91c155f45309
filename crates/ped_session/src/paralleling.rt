//! `parallel`: a DO of the present program becomes a PARALLEL DO where it stands.

ghost use Rattle.std.specs.Prelude.{◌≡◌, IfOk, OnErr};
ghost use Rattle.ped_tree.specs.Views.{program_tree};
ghost use Rattle.ped_tree.specs.Printing.{program_text};
ghost use Rattle.ped_transformations.specs.ped_symbols.specs.NameRefusals.{IsValid};
ghost use Rattle.ped_versions.specs.declared.changes.ChangeKind.TheVariants.{Transformation};
ghost use Rattle.ped_session.specs.Changing.{Changes, IsTakeable, Takes, IsParallelOf, AnswersParallel};
ghost use Rattle.ped_session.specs.Meanings.{IsKept};
ghost use Rattle.ped_session.specs.Scripts.{tests_of};

use crate::replies::{FirstCause, Refusal, Reply};
use crate::session::Session;
use ped_base::NoMemory;
use ped_print::print;
use ped_transformations::{Change, Refused};
use ped_versions::ChangeKind;
use std::alloc::Global;
use std::sync::ledger::Ledger;

impl<L: Ledger> Session<L> {
    /// Takes what `parallel` answers of the DO with this number.
    pub(crate) fn take_parallel(
        &mut self,
        alloc: Global,
        number: u32,
        answer: Result<Change, Refused>,
    ) -> Result<Reply, NoMemory>
        requires takeable { IsTakeable Transformation self.old answer }
        requires parallel { AnswersParallel number self.old answer }
        ensures answers { IfOk result (λ reply. Takes Transformation answer self.old reply self.new) }
        ensures kept { OnErr result (self.new ≡ self.old) }
        ensures untested { IfOk result (λ reply. tests_of reply self.new ≡ 0) }
    {
        match answer {
            Ok(change) => {
                let reply = self.set_parallel(alloc, number, &change);
                drop(change);
                return reply;
            }
            Err(refused) => return Ok(Reply::Refused(Refusal::Step(FirstCause::new(refused)))),
        }
    }

    /// Makes the DO with this number a PARALLEL DO, where the step has made this of the present program. The flag is set
    /// where it stands: what names stand for and the graph are the same, and nothing is tested. All memory is taken
    /// before anything changes.
    fn set_parallel(
        &mut self,
        alloc: Global,
        number: u32,
        change: &Change,
    ) -> Result<Reply, NoMemory>
        requires parallel { IsParallelOf number self.old change.now }
        requires valid { IsValid (program_tree change.now.tree) }
        requires meaning { IsKept Transformation self.old.present (program_text (program_tree change.now.tree)) }
        ensures answers { IfOk result (λ reply. Changes (program_tree change.now.tree) change.now.keep Transformation self.old reply self.new) }
        ensures kept { OnErr result (self.new ≡ self.old) }
        ensures untested { IfOk result (λ reply. tests_of reply self.new ≡ 0) }
    {
        let text = print(alloc, &change.tree)?;
        let kind = ChangeKind::Transformation;
        self.versions.change_flag(number, true, text, kind)?;
        Ok(Reply::Changed)
    }
}
