//! `parallel`: a DO becomes a PARALLEL DO.

ghost use Rattle.std.specs.Prelude.{true, IfOk};
ghost use Rattle.ped_tree.specs.Views.{stmt_trees, program_tree, head_of};
ghost use Rattle.ped_evidence.specs.Lines.{lines_of};
ghost use Rattle.ped_rules.specs.Steps.{Answers};
ghost use Rattle.ped_rules.specs.ped_steps.specs.Replacing.{all_kept};
ghost use Rattle.ped_rules.specs.ped_steps.specs.Scenes.{IsSceneOf};
ghost use Rattle.ped_rules.specs.ped_flow.specs.Questions.{IsLoop};
ghost use Rattle.ped_rules.specs.Flags as Flags;
ghost use Rattle.ped_rules.specs.Paralleling as Spec;
ghost use Rattle.ped_loops.specs.ByEvidence.{paralleling_by};
ghost use Rattle.ped_loops.specs.CodeEnding.{IsByRules};

use crate::ending::unless_forbidden;
use crate::flags::flagged;
use crate::openness::first_open;
use ped_evidence::EvidenceLine;
use ped_rules::{Rule, Scene, StepAnswer, against, escapes, first_carried, loop_at};
use ped_tree::Do;
use std::alloc::Global;
use std::sync::ledger::Ledger;

/// Makes the DO with this number a PARALLEL DO (Allen and Kennedy, section 2.4.1; ParaScope). Each statement keeps its
/// number.
///
/// # Errors
///
/// `Refused` exactly where a rule forbids the step, with the rule of the least number: NoLoop, ParallelState,
/// IndexEscapes or Limit; and else where the DO carries a dependence that the user hasn't rejected, with the first one
/// in the order of the pane.
pub fn make_parallel<L: Ledger>(alloc: Global, scene: &Scene<L>, number: u32) -> StepAnswer
    requires { IsSceneOf (program_tree scene.now.tree.now) scene.now }
    ensures { IfOk result (Answers (Spec.paralleling number) (program_tree scene.now.tree.now)) }
{
    match parallel_by_rules(alloc, scene, number)? {
        Ok(change) => return unless_forbidden(change, first_carried(alloc, scene, number)),
        Err(refused) => return Ok(Err(refused)),
    }
}

/// The same with evidence: a dependence doesn't forbid the step where the evidence disproves each of its vectors.
pub fn make_parallel_by<L: Ledger>(
    alloc: Global,
    scene: &Scene<L>,
    number: u32,
    evidence: &[EvidenceLine],
) -> StepAnswer
    requires { IsSceneOf (program_tree scene.now.tree.now) scene.now }
    ensures { IfOk result (Answers (paralleling_by number (lines_of evidence.now)) (program_tree scene.now.tree.now)) }
{
    match parallel_by_rules(alloc, scene, number)? {
        Ok(change) => return unless_forbidden(change, first_open(alloc, scene, number, evidence)),
        Err(refused) => return Ok(Err(refused)),
    }
}

/// What the rules answer, before any dependence is asked.
fn parallel_by_rules<L: Ledger>(alloc: Global, scene: &Scene<L>, number: u32) -> StepAnswer
    requires { IsSceneOf (program_tree scene.now.tree.now) scene.now }
    ensures { IfOk result (IsByRules (Spec.StandsAgainstParallel number (program_tree scene.now.tree.now)) (Flags.flagged (program_tree scene.now.tree.now) number true) (all_kept (program_tree scene.now.tree.now))) }
{
    match loop_at(scene.tree, number) {
        Some(d) => {
            return parallel_loop_by_rules(alloc, scene, number, d);
        }
        None => {
            return Ok(Err(against(Rule::NoLoop, number)));
        }
    }
}

/// The same, where the statement is this DO.
fn parallel_loop_by_rules<L: Ledger>(
    alloc: Global,
    scene: &Scene<L>,
    number: u32,
    d: &Do,
) -> StepAnswer
    requires scene { IsSceneOf (program_tree scene.now.tree.now) scene.now }
    requires is { IsLoop (program_tree scene.now.tree.now) number (head_of d.now) (stmt_trees d.now.body.items) }
    ensures { IfOk result (IsByRules (Spec.StandsAgainstParallel number (program_tree scene.now.tree.now)) (Flags.flagged (program_tree scene.now.tree.now) number true) (all_kept (program_tree scene.now.tree.now))) }
{
    if d.parallel {
        return Ok(Err(against(Rule::ParallelState, number)));
    }
    if let Some(statement) = escapes(scene, number) {
        return Ok(Err(against(Rule::IndexEscapes, statement)));
    }
    match flagged(alloc, scene, number, d, true)? {
        Some(change) => {
            return Ok(Ok(change));
        }
        None => {
            return Ok(Err(against(Rule::Limit, number)));
        }
    }
}
