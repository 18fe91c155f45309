//! A session as the editor of `auto`: what it reports of its present program, and steps that it takes by itself.

ghost use Rattle.std.specs.Prelude.{◌≡◌};
ghost use Rattle.ped_tree.specs.Tree.{ProgramTree};
ghost use Rattle.ped_tree.specs.Views.{program_tree};
ghost use Rattle.ped_transformations.specs.ped_auto.specs.SerialLoops as Loops;
ghost use Rattle.ped_session.specs.CodeStepReplies.{IsOfStep, Says};

use crate::carrying::carried_names;
use crate::replies::{Refusal, Reply};
use crate::session::Session;
use ped_base::{Name, NoMemory};
use ped_refs::RefName;
use ped_script::Command;
use ped_transformations::{Editor, Refused, loop_at};
use ped_tree::Program;
use ped_verdict::Steps;
use std::alloc::Global;
use std::sync::ledger::Ledger;

impl<L: Ledger> Editor<L> for Session<L> {
    ghost use Rattle.ped_session.specs.AutoEditing.{session_editing};
    ghost use Rattle.ped_session.specs.AutoEditingLaws.{session_laws};

    ghost editing = { session_editing };

    ghost laws = { session_laws };

    fn count(&self) -> u32 {
        self.versions.present().program.count()
    }

    fn is_serial_loop(&self, number: u32) -> bool {
        is_serial_at(self.versions.present().program, number)
    }

    fn carried(&self, alloc: Global, number: u32) -> Result<Vec<RefName>, NoMemory> {
        let present = self.versions.present();
        carried_names(alloc, present.program, present.graph, number)
    }

    fn is_scalar(&self, name: &Name) -> bool {
        self.versions.present().symbols.is_scalar(name)
    }

    fn step(
        &mut self,
        alloc: Global,
        command: &Command,
        steps: &mut Steps<L>,
    ) -> Result<Option<Refused>, NoMemory> {
        let reply = self.apply(alloc, command, &[], steps)?;
        Ok(refused_by(reply))
    }
}

/// Whether the statement with this number is a DO and no PARALLEL DO.
fn is_serial_at(program: &Program, number: u32) -> bool
    ensures { result ≡ Loops.is_serial_loop (program_tree program.now) number }
{
    match loop_at(program, number) {
        Some(d) => {
            return !d.parallel;
        }
        None => {
            return false;
        }
    }
}

/// The cause for which a step is refused, none where it is accepted.
fn refused_by(reply: Reply) -> Option<Refused>
    requires { IsOfStep reply }
    ensures { Says reply result }
{
    match reply {
        Reply::Changed => return None,
        Reply::Refused(Refusal::Step(cause)) => {
            let why = cause.take();
            return Some(why);
        }
        _ => unreachable!(),
    }
}
