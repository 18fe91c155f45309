//! Steps: transformations of the present program, and rejections of its dependences.

ghost use Rattle.std.specs.Prelude.{◌≡◌, ◌+◌, ◌≤◌, IsTrue, IfOk, OnErr};
ghost use Rattle.ped_tree.specs.Tree.{ProgramTree};
ghost use Rattle.ped_versions.specs.ped_valid.specs.Validity.{ReadsValid};
ghost use Rattle.ped_transformations.specs.Table.{step_of};
ghost use Rattle.ped_script.specs.declared.kinds.WhichStep.TheVariants.{Parallel};
ghost use Rattle.ped_session.specs.declared.replies.Reply.{Reply};
ghost use Rattle.ped_versions.specs.States.{State};
ghost use Rattle.ped_session.specs.Steps.{Transforms, change_by};
ghost use Rattle.ped_session.specs.Changing.{IsStepAnswer, IsTakeable, Takes, most_tests};
ghost use Rattle.ped_session.specs.Scripts.{tests_of};

use crate::replies::{FirstCause, Refusal, Reply};
use crate::session::Session;
use ped_base::NoMemory;
use ped_order::flow_of;
use ped_script::{StepCommand, WhichStep};
use ped_transformations::{Refused, Scene, StepAnswer, every_step_is_lawful};
use ped_verdict::Steps;
use ped_versions::{ChangeKind, Opened};
use std::alloc::Global;
use std::sync::ledger::Ledger;

impl<L: Ledger> Session<L> {
    /// Takes the step of a command, where the present program has its statement and nothing forbids it.
    pub(crate) fn transform(
        &mut self,
        alloc: Global,
        command: &StepCommand,
        steps: &mut Steps<L>,
    ) -> Result<Reply, NoMemory>
        ensures answers { IfOk result (λ reply. Transforms (step_of command.now) self.old reply self.new) }
        ensures kept { OnErr result (self.new ≡ self.old) }
        ensures ticks { IfOk result (λ reply. steps.new ≡ steps.old + tests_of reply self.new) }
        ensures least { steps.old ≤ steps.new }
        ensures most { (reply : Reply) (next : State) → Transforms (step_of command.now) self.old reply next → steps.new ≤ steps.old + tests_of reply next }
    {
        every_step_is_lawful();
        let graph = self.versions.present().graph;
        if !graph.has_statement(command.statement) {
            return Ok(Reply::Refused(Refusal::NoSuchStatement));
        }
        let answer = self.answer(alloc, command)?;
        if is_parallel(command) {
            return self.take_parallel(alloc, command.statement, answer);
        }
        self.take(alloc, change_of(command), answer, steps)
    }

    /// What the step of a command makes of the present program, or the first cause against it.
    fn answer(&self, alloc: Global, command: &StepCommand) -> StepAnswer
        ensures answers { IfOk result (IsStepAnswer (step_of command.now) self.now) }
        ensures takeable { IfOk result (IsTakeable (change_by (step_of command.now).kind) self.now) }
    {
        every_step_is_lawful();
        let present = self.versions.present();
        let flow = flow_of(alloc, present.program)?;
        let scene = Scene {
            tree: present.program,
            symbols: present.symbols,
            graph: present.graph,
            flow: &flow,
        };
        ped_transformations::answer(alloc, &scene, command)
    }

    /// Takes what a step answers: its program becomes the present one by a change of this kind, or its cause is the reply.
    fn take(
        &mut self,
        alloc: Global,
        kind: ChangeKind,
        answer: Result<ped_transformations::Change, Refused>,
        steps: &mut Steps<L>,
    ) -> Result<Reply, NoMemory>
        requires { IsTakeable kind self.old answer }
        ensures answers { IfOk result (λ reply. Takes kind answer self.old reply self.new) }
        ensures kept { OnErr result (self.new ≡ self.old) }
        ensures ticks { IfOk result (λ reply. steps.new ≡ steps.old + tests_of reply self.new) }
        ensures least { steps.old ≤ steps.new }
        ensures most { (old : ProgramTree) → ReadsValid self.old.present old → steps.new ≤ steps.old + most_tests answer old }
    {
        match answer {
            Ok(change) => {
                let new = Opened {
                    program: change.tree,
                    symbols: change.symbols,
                };
                return self.change(alloc, new, &change.keep, kind, steps);
            }
            Err(refused) => return Ok(Reply::Refused(Refusal::Step(FirstCause::new(refused)))),
        }
    }
}

/// Whether the step of a command is `parallel`.
fn is_parallel(command: &StepCommand) -> bool
    ensures { IsTrue result → command.now.step ≡ Parallel }
{
    match &command.step {
        WhichStep::Parallel => return true,
        _ => return false,
    }
}

/// How the history takes down the step of a command.
fn change_of(command: &StepCommand) -> ChangeKind
    ensures { result ≡ change_by (step_of command.now).kind }
{
    if command.step.is_rejection() {
        return ChangeKind::Rejection;
    }
    ChangeKind::Transformation
}
