//! `reduce`: the iterations of a DO may run in any order although all of them add to some scalars.

ghost use Rattle.std.specs.Prelude.{◌≡◌, ◌+◌, ◌<◌, ◌^◌, ◌↔◌, [], false, IsTrue, IfOk, MatchOption};
ghost use Rattle.ped_tree.specs.Numbering.{statements_count};
ghost use Rattle.ped_tree.specs.Views.{stmt_tree, stmt_trees, program_tree, head_of};
ghost use Rattle.ped_rules.specs.Chains.{no_rules};
ghost use Rattle.ped_rules.specs.Steps.{Answers};
ghost use Rattle.ped_rules.specs.ped_steps.specs.Scenes.{IsSceneOf};
ghost use Rattle.ped_rules.specs.ped_steps.specs.Changes.{IsChange};
ghost use Rattle.ped_rules.specs.ped_steps.specs.Causes.{NoRule};
ghost use Rattle.ped_rules.specs.ped_steps.specs.Replacing as Replacing;
ghost use Rattle.ped_rules.specs.ped_symbols.specs.NameRefusals.{IsValid};
ghost use Rattle.ped_rules.specs.ped_flow.specs.Questions.{IsLoop};
ghost use Rattle.ped_reduce.specs.Lists as Lists;
ghost use Rattle.ped_reduce.specs.Reducing as Spec;
ghost use Rattle.ped_reduce.specs.CodeReducing.{IsFirstRefusal};

use crate::edges::first_carried_beside;
use crate::lists::{has_list, with_list};
use crate::lowering::{is_in_live, is_lowerable, lower_front};
use crate::rules::{early, late};
use ped_base::{Name, NoMemory};
use ped_rules::{
    Change, Refused, Rule, Scene, StepAnswer, against, all_kept, change_to, loop_at, program_with,
};
use ped_tree::{Do, Program, Stmt};
use std::alloc::Global;
use std::sync::ledger::Ledger;

/// Puts a list of these names at the front of the body of the DO with this number, whose iterations may then add to
/// them in any order (Allen and Kennedy, section 5.6; ParaScope). Each statement keeps its number.
///
/// # Errors
///
/// `Refused` exactly where a rule forbids the step, with the rule of the least number: NoLoop, ParallelState,
/// IndexEscapes, Range, NotScalar, NotConstant, Limit, AlreadyPrivate or NotSum; and else where the DO carries a
/// dependence on another name that the user hasn't rejected, with the first one in the order of the pane.
pub fn reduce<L: Ledger>(alloc: Global, scene: &Scene<L>, number: u32, names: &[Name]) -> StepAnswer
    requires { IsSceneOf (program_tree scene.now.tree.now) scene.now }
    ensures { IfOk result (Answers (Spec.reducing number names.now) (program_tree scene.now.tree.now)) }
{
    match loop_at(scene.tree, number) {
        Some(d) => {
            return reduce_in(alloc, scene, number, d, names);
        }
        None => {
            return Ok(Err(against(Rule::NoLoop, number)));
        }
    }
}

/// The same, where the statement is this DO.
fn reduce_in<L: Ledger>(
    alloc: Global,
    scene: &Scene<L>,
    number: u32,
    d: &Do,
    names: &[Name],
) -> StepAnswer
    requires scene { IsSceneOf (program_tree scene.now.tree.now) scene.now }
    requires is { IsLoop (program_tree scene.now.tree.now) number (head_of d.now) (stmt_trees d.now.body.items) }
    ensures { IfOk result (Answers (Spec.reducing number names.now) (program_tree scene.now.tree.now)) }
{
    if let Some(first) = early(alloc, scene, number, d, names)? {
        return Ok(Err(against(first.rule, first.statement)));
    }
    match reduced(alloc, scene, number, d, names)? {
        Some(change) => {
            return unless_unlowerable(alloc, scene, number, d, names, change);
        }
        None => {
            return Ok(Err(against(Rule::Limit, number)));
        }
    }
}

/// The change, unless the program in which the DO with this number is lowered for these names isn't valid, or what
/// comes after that forbids the step.
fn unless_unlowerable<L: Ledger>(
    alloc: Global,
    scene: &Scene<L>,
    number: u32,
    d: &Do,
    names: &[Name],
    change: Change,
) -> StepAnswer
    requires scene { IsSceneOf (program_tree scene.now.tree.now) scene.now }
    requires is { IsLoop (program_tree scene.now.tree.now) number (head_of d.now) (stmt_trees d.now.body.items) }
    requires clear { NoRule (Spec.also_against_sums number names.now (program_tree scene.now.tree.now) no_rules) }
    requires made { IsChange (Spec.with_reduction (program_tree scene.now.tree.now) number names.now) (Replacing.all_kept (program_tree scene.now.tree.now)) change }
    ensures { IfOk result (Answers (Spec.reducing number names.now) (program_tree scene.now.tree.now)) }
{
    match behind_limit(alloc, scene, number, d, names) {
        Ok(Some(refused)) => {
            return Ok(Err(refused));
        }
        Ok(None) => {
            return Ok(Ok(change));
        }
        Err(NoMemory) => {
            return Err(NoMemory);
        }
    }
}

/// The first cause against the step, where no rule below Limit forbids it and the new program is valid.
fn behind_limit<L: Ledger>(
    alloc: Global,
    scene: &Scene<L>,
    number: u32,
    d: &Do,
    names: &[Name],
) -> Result<Option<Refused>, NoMemory>
    requires scene { IsSceneOf (program_tree scene.now.tree.now) scene.now }
    requires is { IsLoop (program_tree scene.now.tree.now) number (head_of d.now) (stmt_trees d.now.body.items) }
    requires clear { NoRule (Spec.also_against_sums number names.now (program_tree scene.now.tree.now) no_rules) }
    requires valid { IsValid (Spec.with_reduction (program_tree scene.now.tree.now) number names.now) }
    ensures { IfOk result (IsFirstRefusal number names.now (program_tree scene.now.tree.now)) }
{
    if has_list(alloc, d)? {
        return Ok(Some(against(Rule::AlreadyPrivate, number)));
    }
    if is_unlowerable(alloc, scene, number, d, names)? {
        return Ok(Some(against(Rule::Limit, number)));
    }
    if let Some(first) = late(alloc, scene, number, d, names)? {
        return Ok(Some(against(first.rule, first.statement)));
    }
    match first_carried_beside(alloc, scene, number, names)? {
        Some(edge) => {
            return Ok(Some(Refused::Dependence(edge)));
        }
        None => {
            return Ok(None);
        }
    }
}

/// Whether the DO with this number is in none that is lowered, and the program in which it is lowered for these names
/// isn't valid.
fn is_unlowerable<L: Ledger>(
    alloc: Global,
    scene: &Scene<L>,
    number: u32,
    d: &Do,
    names: &[Name],
) -> Result<bool, NoMemory>
    requires scene { IsSceneOf (program_tree scene.now.tree.now) scene.now }
    requires is { IsLoop (program_tree scene.now.tree.now) number (head_of d.now) (stmt_trees d.now.body.items) }
    requires new { Lists.has_list (head_of d.now) (stmt_trees d.now.body.items) ≡ false }
    ensures { IfOk result (λ found. IsTrue found ↔ Spec.IsUnlowerable (program_tree scene.now.tree.now) number names.now) }
{
    let lowered = lower_front(alloc, scene, number - 1)?;
    if is_in_live(alloc, scene.tree, &lowered, number)? {
        return Ok(false);
    }
    let found = is_lowerable(alloc, &lowered, number, names)?;
    Ok(!found)
}

/// The change to the program in which the DO with this number has a list of these names: none exactly where that program isn't
/// valid.
fn reduced<L: Ledger>(
    alloc: Global,
    scene: &Scene<L>,
    number: u32,
    d: &Do,
    names: &[Name],
) -> Result<Option<Change>, NoMemory>
    requires scene { IsSceneOf (program_tree scene.now.tree.now) scene.now }
    requires is { IsLoop (program_tree scene.now.tree.now) number (head_of d.now) (stmt_trees d.now.body.items) }
    ensures { IfOk result (λ found. MatchOption found (IsValid (Spec.with_reduction (program_tree scene.now.tree.now) number names.now) → ⊥)
        (IsChange (Spec.with_reduction (program_tree scene.now.tree.now) number names.now) (Replacing.all_kept (program_tree scene.now.tree.now)))) }
{
    let tree = with_reduction(alloc, scene.tree, number, d, names)?;
    let keep = all_kept(alloc, scene.tree)?;
    change_to(alloc, tree, keep)
}

/// The program in which the DO with this number has a list of these names.
fn with_reduction(
    alloc: Global,
    program: &Program,
    number: u32,
    d: &Do,
    names: &[Name],
) -> Result<Program, NoMemory>
    requires few { statements_count (program_tree program.now).body + 1 < 2 ^ 32 }
    requires is { IsLoop (program_tree program.now) number (head_of d.now) (stmt_trees d.now.body.items) }
    ensures tree { IfOk result (λ p. program_tree p ≡ Spec.with_reduction (program_tree program.now) number names.now) }
    ensures lines { IfOk result (λ p. p.lines.items ≡ []) }
{
    let mut new = Vec::new(alloc);
    new.push(loop_with(alloc, d, names)?)?;
    program_with(alloc, program, number, &new)
}

/// The DO with a list of these names.
fn loop_with(alloc: Global, d: &Do, names: &[Name]) -> Result<Stmt, NoMemory>
    ensures { IfOk result (λ new. Replacing.alone (stmt_tree new) ≡ Spec.with_listed names.now (head_of d.now) (stmt_trees d.now.body.items)) }
{
    let body = with_list(alloc, d, names)?;
    Ok(Stmt::of_loop(d.with_body(body, alloc)?))
}
