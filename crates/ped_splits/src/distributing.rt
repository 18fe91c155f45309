//! `distribute`: the body of a DO is split into several DO loops.

ghost use Rattle.std.specs.Prelude.{◌≡◌, ◌<◌, ℕ, map, length, false, slice_index_or, All, IfOk, OnOk, MatchOption};
ghost use Rattle.ped_tree.specs.Tree as Tree;
ghost use Rattle.ped_tree.specs.Views.{stmt_trees, program_tree, head_of};
ghost use Rattle.ped_rules.specs.Rules.{WhereEscape};
ghost use Rattle.ped_rules.specs.Steps.{Answers};
ghost use Rattle.ped_rules.specs.ped_steps.specs.Changes.{IsChange};
ghost use Rattle.ped_rules.specs.ped_steps.specs.Replacing.{followed};
ghost use Rattle.ped_rules.specs.ped_steps.specs.Scenes.{IsSceneOf};
ghost use Rattle.ped_rules.specs.ped_flow.specs.PlainBounds.{IsPlain};
ghost use Rattle.ped_rules.specs.ped_flow.specs.Questions.{IsLoop};
ghost use Rattle.ped_rules.specs.ped_symbols.specs.Kinds.{table_of};
ghost use Rattle.ped_rules.specs.ped_symbols.specs.NameRefusals.{IsValid};
ghost use Rattle.ped_splits.specs.PiBlocks.{ArePiBlocks};
ghost use Rattle.ped_splits.specs.CodeUnits.{AreBelow, IsParted, body_of, unit_trees};
ghost use Rattle.ped_splits.specs.Distributing as Spec;
ghost use Rattle.ped_splits.specs.Units.{units};

use crate::arrows::reaching;
use crate::joining::loop_with;
use crate::keeping::kept;
use crate::pi_blocks::pi_blocks;
use crate::units::{Parted, Unit, homes_of, units_of};
use ped_base::{Listed, NoMemory};
use ped_rules::{
    Change, Rule, Scene, StepAnswer, against, change_to, escapes, is_plain, loop_at, program_with,
};
use ped_tree::{Do, Stmt};
use std::alloc::Global;
use std::sync::ledger::Ledger;

/// Takes the body of the DO with this number apart into DO loops of their own, as far as its dependences allow, in an
/// order that keeps them (loop distribution: Allen and Kennedy, section 6.2.2; ParaScope).
///
/// # Errors
///
/// `Refused` exactly where a rule forbids the step, with the rule of the least number: NoLoop, ParallelState,
/// IndexEscapes, BoundNotPlain, OneBlock or Limit. No dependence forbids the step.
pub fn distribute<L: Ledger>(alloc: Global, scene: &Scene<L>, number: u32) -> StepAnswer
    requires { IsSceneOf (program_tree scene.now.tree.now) scene.now }
    ensures { IfOk result (Answers (Spec.distributing number) (program_tree scene.now.tree.now)) }
{
    match loop_at(scene.tree, number) {
        Some(d) => {
            return distribute_in(alloc, scene, number, d);
        }
        None => {
            return Ok(Err(against(Rule::NoLoop, number)));
        }
    }
}

/// The same, where the statement is this DO.
fn distribute_in<L: Ledger>(alloc: Global, scene: &Scene<L>, number: u32, d: &Do) -> StepAnswer
    requires scene { IsSceneOf (program_tree scene.now.tree.now) scene.now }
    requires is { IsLoop (program_tree scene.now.tree.now) number (head_of d.now) (stmt_trees d.now.body.items) }
    ensures { IfOk result (Answers (Spec.distributing number) (program_tree scene.now.tree.now)) }
{
    if d.parallel {
        return Ok(Err(against(Rule::ParallelState, number)));
    }
    if let Some(statement) = escapes(scene, number) {
        return Ok(Err(against(Rule::IndexEscapes, statement)));
    }
    distribute_contained(alloc, scene, number, d)
}

/// The same, where the DO is no PARALLEL DO, and no variable of it is read outside its DO.
fn distribute_contained<L: Ledger>(
    alloc: Global,
    scene: &Scene<L>,
    number: u32,
    d: &Do,
) -> StepAnswer
    requires scene { IsSceneOf (program_tree scene.now.tree.now) scene.now }
    requires is { IsLoop (program_tree scene.now.tree.now) number (head_of d.now) (stmt_trees d.now.body.items) }
    requires serial { (head_of d.now).parallel ≡ false }
    requires contained { (n : ℕ) → WhereEscape (program_tree scene.now.tree.now) number n → ⊥ }
    ensures { IfOk result (Answers (Spec.distributing number) (program_tree scene.now.tree.now)) }
{
    let first = is_plain(alloc, scene, number, &d.first)?;
    if !first {
        return Ok(Err(against(Rule::BoundNotPlain, number)));
    }
    let last = is_plain(alloc, scene, number, &d.last)?;
    if !last {
        return Ok(Err(against(Rule::BoundNotPlain, number)));
    }
    distribute_plain(alloc, scene, number, d)
}

/// The same, where only the rules OneBlock and Limit may forbid the step.
fn distribute_plain<L: Ledger>(alloc: Global, scene: &Scene<L>, number: u32, d: &Do) -> StepAnswer
    requires scene { IsSceneOf (program_tree scene.now.tree.now) scene.now }
    requires is { IsLoop (program_tree scene.now.tree.now) number (head_of d.now) (stmt_trees d.now.body.items) }
    requires serial { (head_of d.now).parallel ≡ false }
    requires contained { (n : ℕ) → WhereEscape (program_tree scene.now.tree.now) number n → ⊥ }
    requires first { IsPlain (table_of (program_tree scene.now.tree.now)).constants (program_tree scene.now.tree.now) number (head_of d.now).first }
    requires last { IsPlain (table_of (program_tree scene.now.tree.now)).constants (program_tree scene.now.tree.now) number (head_of d.now).last }
    ensures { IfOk result (Answers (Spec.distributing number) (program_tree scene.now.tree.now)) }
{
    let units = units_of(alloc, &d.body)?;
    let homes = homes_of(alloc, &units)?;
    let parted = Parted {
        number,
        statement: d,
        units: &units,
        homes: &homes,
    };
    distribute_parted(alloc, scene, &parted)
}

/// The same, where these are the units of the DO.
fn distribute_parted<L: Ledger>(alloc: Global, scene: &Scene<L>, parted: &Parted) -> StepAnswer
    requires scene { IsSceneOf (program_tree scene.now.tree.now) scene.now }
    requires parted { IsParted (program_tree scene.now.tree.now) parted.now }
    requires serial { (head_of parted.now.statement.now).parallel ≡ false }
    requires contained { (n : ℕ) → WhereEscape (program_tree scene.now.tree.now) parted.now.number n → ⊥ }
    requires first { IsPlain (table_of (program_tree scene.now.tree.now)).constants (program_tree scene.now.tree.now) parted.now.number (head_of parted.now.statement.now).first }
    requires last { IsPlain (table_of (program_tree scene.now.tree.now)).constants (program_tree scene.now.tree.now) parted.now.number (head_of parted.now.statement.now).last }
    ensures { IfOk result (Answers (Spec.distributing parted.now.number) (program_tree scene.now.tree.now)) }
{
    let found = pi_blocks_of(alloc, scene, parted)?;
    if found.len() < 2 {
        return Ok(Err(against(Rule::OneBlock, parted.number)));
    }
    match distributed(alloc, scene, parted, &found)? {
        Some(change) => {
            return Ok(Ok(change));
        }
        None => {
            return Ok(Err(against(Rule::Limit, parted.number)));
        }
    }
}

/// The pi-blocks of units of the DO, in order.
fn pi_blocks_of<L: Ledger>(
    alloc: Global,
    scene: &Scene<L>,
    parted: &Parted,
) -> Result<Vec<Listed<usize>>, NoMemory>
    requires scene { IsSceneOf (program_tree scene.now.tree.now) scene.now }
    requires parted { IsParted (program_tree scene.now.tree.now) parted.now }
    ensures { IfOk result (λ found. ArePiBlocks (program_tree scene.now.tree.now) parted.now.number (head_of parted.now.statement.now) (body_of parted.now) found.items) }
{
    let reach = reaching(alloc, scene, parted)?;
    pi_blocks(alloc, &reach)
}

/// The change to the program with the DO taken apart into these pi-blocks: none exactly where that program isn't valid.
fn distributed<L: Ledger>(
    alloc: Global,
    scene: &Scene<L>,
    parted: &Parted,
    found: &[Listed<usize>],
) -> Result<Option<Change>, NoMemory>
    requires scene { IsSceneOf (program_tree scene.now.tree.now) scene.now }
    requires parted { IsParted (program_tree scene.now.tree.now) parted.now }
    requires pi_blocks { ArePiBlocks (program_tree scene.now.tree.now) parted.now.number (head_of parted.now.statement.now) (body_of parted.now) found.now }
    ensures { IfOk result (λ change. MatchOption change (IsValid (Spec.distributed (program_tree scene.now.tree.now) parted.now.number found.now) → ⊥)
        (IsChange (Spec.distributed (program_tree scene.now.tree.now) parted.now.number found.now)
        (Spec.kept_from 1 (Spec.sources (program_tree scene.now.tree.now) parted.now.number (body_of parted.now) found.now)))) }
{
    let loops = loops_of(alloc, parted, found)?;
    let tree = program_with(alloc, scene.tree, parted.number, &loops)?;
    let keep = kept(alloc, scene.tree, parted, found)?;
    change_to(alloc, tree, keep)
}

/// A DO for each pi-block, with the head of the old one.
fn loops_of(alloc: Global, parted: &Parted, found: &[Listed<usize>]) -> Result<Vec<Stmt>, NoMemory>
    requires units { unit_trees parted.now.units.now ≡ units (body_of parted.now) }
    requires below { All (AreBelow (length parted.now.units.now)) found.now }
    ensures { IfOk result (λ loops. stmt_trees loops.items ≡ Spec.loops_of found.now (head_of parted.now.statement.now) (body_of parted.now)) }
{
    let mut loops = Vec::new(alloc);
    for block in found {
        let body = units_at(alloc, parted.units, block.as_slice())?;
        loops.push(loop_with(alloc, parted.statement, body)?)?;
    }
    Ok(loops)
}

/// Copies of the statements of these units.
fn units_at(alloc: Global, units: &[Unit], block: &[usize]) -> Result<Vec<Stmt>, NoMemory>
    requires { AreBelow (length units.now) block.now }
    ensures { IfOk result (λ all. stmt_trees all.items ≡ Spec.joined (map (λ i. slice_index_or (unit_trees units.now) i Tree.no_stmts) block.now)) }
{
    let mut all = Vec::new(alloc);
    for unit in block {
        add_copies(alloc, &mut all, units[*unit].statements)?;
    }
    Ok(all)
}

/// Adds copies of statements.
fn add_copies(alloc: Global, all: &mut Vec<Stmt>, statements: &[Stmt]) -> Result<(), NoMemory>
    ensures { OnOk result (stmt_trees all.new.items ≡ followed (stmt_trees all.old.items) (stmt_trees statements.now)) }
{
    for statement in statements {
        all.push(statement.copy(alloc)?)?;
    }
    Ok(())
}
