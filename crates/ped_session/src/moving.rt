//! Steps back and forward along the history, which take no memory.

ghost use Rattle.ped_session.specs.Steps.{GoesBack, GoesForward};

use crate::replies::{Refusal, Reply};
use crate::session::Session;
use ped_versions::{NothingToRedo, NothingToUndo};
use std::sync::ledger::Ledger;

impl<L: Ledger> Session<L> {
    /// Goes to the newest past source.
    pub(crate) fn undo(&mut self) -> Reply
        ensures { GoesBack self.old.past self.old result self.new }
    {
        match self.versions.undo() {
            Ok(()) => return Reply::Changed,
            Err(NothingToUndo) => return Reply::Refused(Refusal::NothingToUndo),
        }
    }

    /// Goes to the next future source.
    pub(crate) fn redo(&mut self) -> Reply
        ensures { GoesForward self.old.future self.old result self.new }
    {
        match self.versions.redo() {
            Ok(()) => return Reply::Changed,
            Err(NothingToRedo) => return Reply::Refused(Refusal::NothingToRedo),
        }
    }
}
