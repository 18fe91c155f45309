//! `serial`: a PARALLEL DO becomes a DO whose iterations are done in order.

ghost use Rattle.std.specs.Prelude.{IfOk};
ghost use Rattle.ped_tree.specs.Views.{stmt_trees, program_tree, head_of};
ghost use Rattle.ped_rules.specs.Steps.{Answers};
ghost use Rattle.ped_rules.specs.ped_steps.specs.Scenes.{IsSceneOf};
ghost use Rattle.ped_rules.specs.ped_flow.specs.Questions.{IsLoop};
ghost use Rattle.ped_loops.specs.Serialising as Spec;

use crate::flags::flagged;
use ped_rules::{Rule, Scene, StepAnswer, against, escapes, loop_at};
use ped_tree::Do;
use std::alloc::Global;
use std::sync::ledger::Ledger;

/// Makes the PARALLEL DO with this number a DO whose iterations are done in order (ParaScope). Each statement keeps its
/// number.
///
/// # Errors
///
/// `Refused` exactly where a rule forbids the step, with the rule of the least number: NoLoop, ParallelState,
/// IndexEscapes or Limit. No dependence forbids the step.
pub fn make_serial<L: Ledger>(alloc: Global, scene: &Scene<L>, number: u32) -> StepAnswer
    requires { IsSceneOf (program_tree scene.now.tree.now) scene.now }
    ensures { IfOk result (Answers (Spec.serialising number) (program_tree scene.now.tree.now)) }
{
    match loop_at(scene.tree, number) {
        Some(d) => {
            return make_serial_in(alloc, scene, number, d);
        }
        None => {
            return Ok(Err(against(Rule::NoLoop, number)));
        }
    }
}

/// The same, where the statement is this DO.
fn make_serial_in<L: Ledger>(alloc: Global, scene: &Scene<L>, number: u32, d: &Do) -> StepAnswer
    requires scene { IsSceneOf (program_tree scene.now.tree.now) scene.now }
    requires is { IsLoop (program_tree scene.now.tree.now) number (head_of d.now) (stmt_trees d.now.body.items) }
    ensures { IfOk result (Answers (Spec.serialising number) (program_tree scene.now.tree.now)) }
{
    if !d.parallel {
        return Ok(Err(against(Rule::ParallelState, number)));
    }
    if let Some(statement) = escapes(scene, number) {
        return Ok(Err(against(Rule::IndexEscapes, statement)));
    }
    match flagged(alloc, scene, number, d, false)? {
        Some(change) => {
            return Ok(Ok(change));
        }
        None => {
            return Ok(Err(against(Rule::Limit, number)));
        }
    }
}
