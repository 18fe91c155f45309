//! What the rules of the steps on scalars ask.

ghost use Rattle.std.specs.Prelude.{◌≡◌, ◌+◌, ◌<◌, ◌^◌, ℕ, length, IfOk, MatchOption};
ghost use Rattle.ped_tree.specs.Numbering.{statements_count};
ghost use Rattle.ped_tree.specs.Views.{stmt_trees, program_tree};
ghost use Rattle.ped_refs.specs.References.{references};
ghost use Rattle.ped_refs.specs.Loops.{nest_of};
ghost use Rattle.ped_tree.specs.Views.{head_of};
ghost use Rattle.ped_rules.specs.ped_flow.specs.PlainBounds.{nest_round};
ghost use Rattle.ped_rules.specs.ped_flow.specs.Questions.{IsLoop, IsFirst, IsExposed};
ghost use Rattle.ped_rules.specs.ped_steps.specs.Scenes.{IsSceneOf, IsFlowOf};
ghost use Rattle.ped_rules.specs.Scalars as Spec;

use crate::referring::is_referred;
use ped_base::{Name, NoMemory};
use ped_refs::{Loop, is_index};
use ped_rules::{Flow, Reader, Scene, is_index_in};
use ped_tree::Do;
use std::alloc::Global;
use std::sync::ledger::Ledger;

/// The statement by which a scalar is live after the DO with this number: the first that may read it there, or the DO
/// itself where only the program's end may show it.
pub(crate) fn live_by(flow: &Flow, number: u32, name: &Name) -> Option<u32>
    requires few { statements_count (program_tree flow.now.program.now).body + 1 < 2 ^ 32 }
    ensures { MatchOption result ((n : ℕ) → Spec.IsLiveBy (program_tree flow.now.program.now) number name.now n → ⊥) (Spec.IsLiveBy (program_tree flow.now.program.now) number name.now) }
{
    match flow.live_after(number, name) {
        Some(Reader::Statement(statement)) => {
            return Some(statement);
        }
        Some(Reader::Saved) => {
            return Some(number);
        }
        None => {
            return None;
        }
    }
}

/// Whether no step can give each iteration of the DO with this number its own copy of the name; these are the DO loops
/// around it.
pub(crate) fn is_unfit<L: Ledger>(
    alloc: Global,
    scene: &Scene<L>,
    number: u32,
    d: &Do,
    round: &[Loop],
    name: &Name,
) -> Result<bool, NoMemory>
    requires scene { IsSceneOf (program_tree scene.now.tree.now) scene.now }
    requires is { IsLoop (program_tree scene.now.tree.now) number (head_of d.now) (stmt_trees d.now.body.items) }
    requires round { nest_of round.now ≡ nest_round (program_tree scene.now.tree.now) number }
    ensures { IfOk result (λ r. r ≡ Spec.is_unfit (program_tree scene.now.tree.now) number name.now (head_of d.now) (stmt_trees d.now.body.items)) }
{
    if !scene.symbols.is_scalar(name) {
        return Ok(true);
    }
    if is_index(name, round) || is_index_in(name, d) {
        return Ok(true);
    }
    let referred = is_referred(alloc, scene.tree, number, d, name)?;
    Ok(!referred)
}
