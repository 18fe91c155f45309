//! `privatise`: a scalar becomes private to the iterations of a DO.

ghost use Rattle.std.specs.Prelude.{◌≡◌, ◌||◌, ◌+◌, ◌<◌, ◌^◌, [], ℕ, IfOk, MatchOption};
ghost use Rattle.std.specs.List.{list_any};
ghost use Rattle.ped_tree.specs.Views.{stmt_tree, stmt_trees, do_tree, program_tree};
ghost use Rattle.ped_tree.specs.Numbering.{statements_count};
ghost use Rattle.ped_refs.specs.Loops.{nest_of};
ghost use Rattle.ped_tree.specs.Views.{head_of};
ghost use Rattle.ped_rules.specs.ped_flow.specs.Questions.{IsLoop};
ghost use Rattle.ped_rules.specs.ped_steps.specs.Replacing as Replacing;
ghost use Rattle.ped_rules.specs.ped_steps.specs.Changes.{IsChange};
ghost use Rattle.ped_rules.specs.ped_steps.specs.Scenes.{IsSceneOf};
ghost use Rattle.ped_rules.specs.ped_symbols.specs.NameRefusals.{IsValid};
ghost use Rattle.ped_rules.specs.Steps.{Answers};
ghost use Rattle.ped_scalar.specs.Privatising as Spec;

use crate::scalars::{is_unfit, live_by};
use ped_base::{Name, NoMemory, is_among};
use ped_refs::Loop;
use ped_rules::{
    Change, Rule, Scene, StepAnswer, against, all_kept, change_to, is_some_parallel, loop_at,
    loops_round, program_with,
};
use ped_tree::{Do, Program, Stmt};
use std::alloc::Global;
use std::sync::ledger::Ledger;

/// Puts a scalar last in the PRIVATE list of the DO with this number (Allen and Kennedy, section 5.2; ParaScope). Each
/// statement keeps its number.
///
/// # Errors
///
/// `Refused` exactly where a rule forbids the step, with the rule of the least number: NoLoop, ParallelState,
/// ExposedOrLive, NotScalar, Limit or AlreadyPrivate. No dependence forbids the step.
pub fn privatise<L: Ledger>(alloc: Global, scene: &Scene<L>, number: u32, name: &Name) -> StepAnswer
    requires { IsSceneOf (program_tree scene.now.tree.now) scene.now }
    ensures { IfOk result (Answers (Spec.privatising number name.now) (program_tree scene.now.tree.now)) }
{
    match loop_at(scene.tree, number) {
        Some(d) => {
            return privatise_in(alloc, scene, number, d, name);
        }
        None => {
            return Ok(Err(against(Rule::NoLoop, number)));
        }
    }
}

/// The same, where the statement is this DO.
fn privatise_in<L: Ledger>(
    alloc: Global,
    scene: &Scene<L>,
    number: u32,
    d: &Do,
    name: &Name,
) -> StepAnswer
    requires scene { IsSceneOf (program_tree scene.now.tree.now) scene.now }
    requires is { IsLoop (program_tree scene.now.tree.now) number (head_of d.now) (stmt_trees d.now.body.items) }
    ensures { IfOk result (Answers (Spec.privatising number name.now) (program_tree scene.now.tree.now)) }
{
    let round = loops_round(alloc, scene.tree, number)?;
    if is_parallel(d, &round) {
        return Ok(Err(against(Rule::ParallelState, number)));
    }
    if let Some(statement) = exposed_or_live(scene, number, name) {
        return Ok(Err(against(Rule::ExposedOrLive, statement)));
    }
    if is_unfit(alloc, scene, number, d, &round, name)? {
        return Ok(Err(against(Rule::NotScalar, number)));
    }
    if is_among(name, d.private.as_slice()) {
        return Ok(Err(against(Rule::AlreadyPrivate, number)));
    }
    match privatised(alloc, scene, number, d, name)? {
        Some(change) => {
            return Ok(Ok(change));
        }
        None => {
            return Ok(Err(against(Rule::Limit, number)));
        }
    }
}

/// Whether the DO or one around it is a PARALLEL DO.
fn is_parallel(d: &Do, round: &[Loop]) -> bool
    ensures { result ≡ ((head_of d.now).parallel || list_any (λ m. m.head.parallel) (nest_of round.now)) }
{
    d.parallel || is_some_parallel(round)
}

/// The statement by which the name, where it is that of a scalar variable, is exposed in the DO with this number or
/// live after it.
fn exposed_or_live<L: Ledger>(scene: &Scene<L>, number: u32, name: &Name) -> Option<u32>
    requires { IsSceneOf (program_tree scene.now.tree.now) scene.now }
    ensures { MatchOption result ((n : ℕ) → Spec.IsScalarExposedOrLiveBy (program_tree scene.now.tree.now) number name.now n → ⊥) (Spec.IsScalarExposedOrLiveBy (program_tree scene.now.tree.now) number name.now) }
{
    if !scene.symbols.is_scalar(name) {
        return None;
    }
    match scene.flow.exposed(number, name) {
        Some(statement) => {
            return Some(statement);
        }
        None => {
            return live_by(scene.flow, number, name);
        }
    }
}

/// The change to the program with the name last in the PRIVATE list of the DO with this number: none exactly where that
/// program isn't valid.
fn privatised<L: Ledger>(
    alloc: Global,
    scene: &Scene<L>,
    number: u32,
    d: &Do,
    name: &Name,
) -> Result<Option<Change>, NoMemory>
    requires scene { IsSceneOf (program_tree scene.now.tree.now) scene.now }
    requires is { IsLoop (program_tree scene.now.tree.now) number (head_of d.now) (stmt_trees d.now.body.items) }
    ensures { IfOk result (λ found. MatchOption found (IsValid (Spec.privatised (program_tree scene.now.tree.now) number name.now) → ⊥)
        (IsChange (Spec.privatised (program_tree scene.now.tree.now) number name.now) (Replacing.all_kept (program_tree scene.now.tree.now)))) }
{
    let tree = with_private(alloc, scene.tree, number, d, name)?;
    let keep = all_kept(alloc, scene.tree)?;
    change_to(alloc, tree, keep)
}

/// The program with the name last in the PRIVATE list of the DO with this number.
fn with_private(
    alloc: Global,
    program: &Program,
    number: u32,
    d: &Do,
    name: &Name,
) -> Result<Program, NoMemory>
    requires few { statements_count (program_tree program.now).body + 1 < 2 ^ 32 }
    requires is { IsLoop (program_tree program.now) number (head_of d.now) (stmt_trees d.now.body.items) }
    ensures tree { IfOk result (λ p. program_tree p ≡ Spec.privatised (program_tree program.now) number name.now) }
    ensures lines { IfOk result (λ p. p.lines.items ≡ []) }
{
    let mut new = Vec::new(alloc);
    new.push(loop_with(alloc, d, name)?)?;
    program_with(alloc, program, number, &new)
}

/// A DO with the name last in its PRIVATE list.
fn loop_with(alloc: Global, d: &Do, name: &Name) -> Result<Stmt, NoMemory>
    ensures { IfOk result (λ new. Replacing.alone (stmt_tree new) ≡ Spec.with_private name.now (do_tree d.now)) }
{
    let mut new = d.copy(alloc)?;
    match new.private.push(*name) {
        Ok(()) => Ok(Stmt::of_loop(new)),
        Err(error) => {
            drop(new);
            Err(error)
        }
    }
}
