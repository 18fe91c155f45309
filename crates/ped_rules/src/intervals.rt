//! New bounds that may go beyond 2^62 (this project).

ghost use Rattle.std.specs.Prelude.{ℕ, ◌≡◌, ◌≤◌, length, IfOk};
ghost use Rattle.ped_tree.specs.Views.{expr_tree, program_tree};
ghost use Rattle.ped_affine.specs.PairViews.{heads_of};
ghost use Rattle.ped_refs.specs.Loops.{nest_of};
ghost use Rattle.ped_loop_runs.specs.ped_steps.specs.Scenes.{IsSceneOf};
ghost use Rattle.ped_rules.specs.Rules as Spec;

use ped_affine::{Setting, interval, loop_variables};
use ped_base::NoMemory;
use ped_loop_runs::Scene;
use ped_refs::Loop;
use ped_tree::Expr;
use ped_tree::names::NameSet;
use std::alloc::Global;
use std::sync::ledger::Ledger;

/// Whether a new bound in these DO loops, the outermost first, has a part whose values may leave 2^62, or one that has
/// no interval. At most six loops are in a nest. What the outermost DO assigns plays no part in it, so it is the same
/// for each statement.
pub fn leaves<L: Ledger>(
    alloc: Global,
    scene: &Scene<L>,
    nest: &[Loop],
    e: &Expr,
) -> Result<bool, NoMemory>
    requires scene { IsSceneOf (program_tree scene.now.tree.now) scene.now }
    requires nest { length nest.now ≤ 6 }
    ensures { IfOk result (λ r. (s : ℕ) → r ≡ Spec.leaves (Spec.setting_at (program_tree scene.now.tree.now) s) (heads_of (nest_of nest.now)) (expr_tree e.now)) }
{
    let variables = loop_variables(alloc, &scene.tree.body)?;
    let assigned = NameSet::new(alloc);
    let setting = Setting {
        constants: scene.symbols.consts(),
        loop_variables: &variables,
        assigned: &assigned,
    };
    Ok(interval(&setting, nest, e).is_none())
}
