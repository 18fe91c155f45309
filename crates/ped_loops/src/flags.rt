//! A DO that becomes a PARALLEL DO, or ceases to be one.

ghost use Rattle.std.specs.Prelude.{◌≡◌, ◌+◌, ◌<◌, ◌^◌, [], IfOk, MatchOption};
ghost use Rattle.ped_tree.specs.Numbering.{statements_count};
ghost use Rattle.ped_tree.specs.Views.{stmt_tree, stmt_trees, program_tree, head_of};
ghost use Rattle.ped_rules.specs.ped_symbols.specs.NameRefusals.{IsValid};
ghost use Rattle.ped_rules.specs.ped_flow.specs.Questions.{IsLoop};
ghost use Rattle.ped_rules.specs.ped_steps.specs.Changes.{IsChange};
ghost use Rattle.ped_rules.specs.ped_steps.specs.Replacing as Replacing;
ghost use Rattle.ped_rules.specs.ped_steps.specs.Scenes.{IsSceneOf};
ghost use Rattle.ped_rules.specs.Flags as Spec;

use ped_base::NoMemory;
use ped_rules::{Change, Scene, all_kept, change_to, program_with};
use ped_tree::{Do, Program, Stmt};
use std::alloc::Global;
use std::sync::ledger::Ledger;

/// The change to the program in which the DO with this number is a PARALLEL DO or isn't: none exactly where that program
/// isn't valid.
pub(crate) fn flagged<L: Ledger>(
    alloc: Global,
    scene: &Scene<L>,
    number: u32,
    d: &Do,
    parallel: bool,
) -> Result<Option<Change>, NoMemory>
    requires scene { IsSceneOf (program_tree scene.now.tree.now) scene.now }
    requires is { IsLoop (program_tree scene.now.tree.now) number (head_of d.now) (stmt_trees d.now.body.items) }
    ensures { IfOk result (λ found. MatchOption found (IsValid (Spec.flagged (program_tree scene.now.tree.now) number parallel) → ⊥)
        (IsChange (Spec.flagged (program_tree scene.now.tree.now) number parallel) (Replacing.all_kept (program_tree scene.now.tree.now)))) }
{
    let tree = with_flag(alloc, scene.tree, number, d, parallel)?;
    let keep = all_kept(alloc, scene.tree)?;
    change_to(alloc, tree, keep)
}

/// The program in which the DO with this number is a PARALLEL DO or isn't.
fn with_flag(
    alloc: Global,
    program: &Program,
    number: u32,
    d: &Do,
    parallel: bool,
) -> Result<Program, NoMemory>
    requires few { statements_count (program_tree program.now).body + 1 < 2 ^ 32 }
    requires is { IsLoop (program_tree program.now) number (head_of d.now) (stmt_trees d.now.body.items) }
    ensures tree { IfOk result (λ p. program_tree p ≡ Spec.flagged (program_tree program.now) number parallel) }
    ensures lines { IfOk result (λ p. p.lines.items ≡ []) }
{
    let mut new = Vec::new(alloc);
    new.push(loop_with(alloc, d, parallel)?)?;
    program_with(alloc, program, number, &new)
}

/// The DO as a PARALLEL DO, or as one that isn't.
fn loop_with(alloc: Global, d: &Do, parallel: bool) -> Result<Stmt, NoMemory>
    ensures { IfOk result (λ new. Replacing.alone (stmt_tree new) ≡ Spec.with_flag parallel (head_of d.now) (stmt_trees d.now.body.items)) }
{
    let mut new = d.copy(alloc)?;
    new.parallel = parallel;
    Ok(Stmt::of_loop(new))
}
