//! What each step answers.

ghost use Rattle.std.specs.Prelude.{IfOk};
ghost use Rattle.ped_tree.specs.Views.{program_tree};
ghost use Rattle.ped_auto.specs.ped_rules.specs.Steps.{Answers};
ghost use Rattle.ped_auto.specs.ped_rules.specs.ped_steps.specs.Scenes.{IsSceneOf};
ghost use Rattle.ped_transformations.specs.Table.{step_of};

use ped_inline::{Scene, StepAnswer, inline};
use ped_loops::{
    interchange, interchange_by, make_parallel, make_parallel_by, make_serial, reject, reverse,
    reverse_by,
};
use ped_reduce::reduce;
use ped_reindex::{peel, skew, strip};
use ped_scalar::{expand, privatise};
use ped_script::{StepCommand, WhichStep};
use ped_splits::{distribute, fuse};
use std::alloc::Global;
use std::sync::ledger::Ledger;

/// What the step of a command makes of a program, or the first cause against it.
pub fn answer<L: Ledger>(alloc: Global, scene: &Scene<L>, command: &StepCommand) -> StepAnswer
    requires { IsSceneOf (program_tree scene.now.tree.now) scene.now }
    ensures { IfOk result (Answers (step_of command.now) (program_tree scene.now.tree.now)) }
{
    let number = command.statement;
    match &command.step {
        WhichStep::Privatise(name) => return privatise(alloc, scene, number, name),
        WhichStep::Expand(name) => return expand(alloc, scene, number, name),
        WhichStep::Reduce(names) => return reduce(alloc, scene, number, names.as_slice()),
        WhichStep::Interchange => return interchange(alloc, scene, number),
        WhichStep::Reverse => return reverse(alloc, scene, number),
        WhichStep::Skew(factor) => return skew(alloc, scene, number, *factor),
        WhichStep::Strip(size) => return strip(alloc, scene, number, *size),
        WhichStep::Peel { last } => return peel(alloc, scene, number, *last),
        WhichStep::Distribute => return distribute(alloc, scene, number),
        WhichStep::Fuse => return fuse(alloc, scene, number),
        WhichStep::Inline => return inline(alloc, scene, number),
        WhichStep::Parallel => return make_parallel(alloc, scene, number),
        WhichStep::Serial => return make_serial(alloc, scene, number),
        WhichStep::Reject(name) => return reject(alloc, scene, number, name),
        WhichStep::ParallelBy(evidence) => {
            return make_parallel_by(alloc, scene, number, evidence.as_slice());
        }
        WhichStep::ReverseBy(evidence) => {
            return reverse_by(alloc, scene, number, evidence.as_slice());
        }
        WhichStep::InterchangeBy(evidence) => {
            return interchange_by(alloc, scene, number, evidence.as_slice());
        }
    }
}
