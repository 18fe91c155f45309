//! `inline`: the statements of a marked block replace the block.

ghost use Rattle.std.specs.Prelude.{◌≡◌, ◌+◌, ◌-◌, ◌<◌, ◌^◌, [], map, IfOk, MatchOption};
ghost use Rattle.std.specs.List.{range_with_len};
ghost use Rattle.ped_tree.specs.Numbering.{statements_count};
ghost use Rattle.ped_tree.specs.Views.{stmt_trees, program_tree};
ghost use Rattle.ped_rules.specs.Steps.{Answers};
ghost use Rattle.ped_rules.specs.ped_steps.specs.Changes.{IsChange};
ghost use Rattle.ped_rules.specs.ped_steps.specs.Scenes.{IsSceneOf};
ghost use Rattle.ped_rules.specs.ped_symbols.specs.NameRefusals.{IsValid};
ghost use Rattle.ped_rules.specs.KeepMaps as KeepMaps;
ghost use Rattle.ped_inline.specs.Blocks.{IsBlock};
ghost use Rattle.ped_inline.specs.Inlining as Spec;

use crate::blocks::block_at;
use ped_base::{Listed, NoMemory};
use ped_rules::{
    Change, Keep, Rule, Scene, StepAnswer, against, behind_comments, body_with, change_to,
};
use ped_tree::{Program, Stmt, copy_decls, count_statements};
use std::alloc::Global;
use std::sync::ledger::Ledger;

/// Puts the statements of the marked block with this number in its place (ParaScope). The block's number goes, and the
/// numbers of the statements after it decrease by one.
///
/// # Errors
///
/// `Refused` exactly where a rule forbids the step, with the rule of the least number: Limit or NoCall. No dependence
/// forbids the step.
pub fn inline<L: Ledger>(alloc: Global, scene: &Scene<L>, number: u32) -> StepAnswer
    requires { IsSceneOf (program_tree scene.now.tree.now) scene.now }
    ensures { IfOk result (Answers (Spec.inlining number) (program_tree scene.now.tree.now)) }
{
    match block_at(scene.tree, number) {
        Some(body) => {
            return inline_block(alloc, scene, number, body);
        }
        None => {
            return Ok(Err(against(Rule::NoCall, number)));
        }
    }
}

/// The same, where the statement is a marked block with this body.
fn inline_block<L: Ledger>(
    alloc: Global,
    scene: &Scene<L>,
    number: u32,
    body: &[Stmt],
) -> StepAnswer
    requires scene { IsSceneOf (program_tree scene.now.tree.now) scene.now }
    requires is { IsBlock (program_tree scene.now.tree.now) number (stmt_trees body.now) }
    ensures { IfOk result (Answers (Spec.inlining number) (program_tree scene.now.tree.now)) }
{
    match inlined(alloc, scene, number, body)? {
        Some(change) => {
            return Ok(Ok(change));
        }
        None => {
            return Ok(Err(against(Rule::Limit, number)));
        }
    }
}

/// The change to the program with the statements of the block in its place: none exactly where that program isn't valid.
fn inlined<L: Ledger>(
    alloc: Global,
    scene: &Scene<L>,
    number: u32,
    body: &[Stmt],
) -> Result<Option<Change>, NoMemory>
    requires scene { IsSceneOf (program_tree scene.now.tree.now) scene.now }
    requires is { IsBlock (program_tree scene.now.tree.now) number (stmt_trees body.now) }
    ensures { IfOk result (λ found. MatchOption found (IsValid (Spec.inlined (program_tree scene.now.tree.now) number) → ⊥)
        (IsChange (Spec.inlined (program_tree scene.now.tree.now) number) (Spec.inline_kept (program_tree scene.now.tree.now) number))) }
{
    let tree = with_body(alloc, scene.tree, number, body)?;
    let keep = inline_kept(alloc, scene.tree, number)?;
    change_to(alloc, tree, keep)
}

/// The program with the statements of the block in its place.
fn with_body(
    alloc: Global,
    program: &Program,
    number: u32,
    statements: &[Stmt],
) -> Result<Program, NoMemory>
    requires few { statements_count (program_tree program.now).body + 1 < 2 ^ 32 }
    requires is { IsBlock (program_tree program.now) number (stmt_trees statements.now) }
    ensures tree { IfOk result (λ p. program_tree p ≡ Spec.inlined (program_tree program.now) number) }
    ensures lines { IfOk result (λ p. p.lines.items ≡ []) }
{
    let mut decls = copy_decls(&program.decls, alloc)?;
    let all = body_with(alloc, &program.body, number, statements)?;
    let body = behind_comments(alloc, &mut decls, all)?;
    Ok(Program {
        decls,
        body,
        lines: Vec::new(alloc),
    })
}

/// Each statement but the block, with its number after the step.
fn inline_kept(alloc: Global, program: &Program, number: u32) -> Result<Keep, NoMemory>
    requires { statements_count (program_tree program.now).body + 1 < 2 ^ 32 }
    ensures { IfOk result (λ keep. keep ≡ Spec.inline_kept (program_tree program.now) number) }
{
    kept_up_to(alloc, one_less(count_statements(&program.body)), number)
}

/// The `count` statements of the new program, each with its number before the step.
fn kept_up_to(alloc: Global, count: u32, number: u32) -> Result<Keep, NoMemory>
    requires { count + 1 < 2 ^ 32 }
    ensures { IfOk result (λ keep. keep ≡ map (λ k. (KeepMaps.opened_at number k, k)) (range_with_len 1 count)) }
{
    let mut keep = Listed::new(alloc);
    for n in 0..count {
        keep.push((opened_at(number, n + 1), n + 1))?;
    }
    Ok(keep)
}

/// The number before the step of a statement of the new program.
fn opened_at(number: u32, k: u32) -> u32
    requires { k + 1 < 2 ^ 32 }
    ensures { result ≡ KeepMaps.opened_at number k }
{
    if k < number { k } else { k + 1 }
}

/// One less, or none where there is none.
fn one_less(count: u32) -> u32
    ensures { result ≡ count - 1 }
{
    if count == 0 { 0 } else { count - 1 }
}
