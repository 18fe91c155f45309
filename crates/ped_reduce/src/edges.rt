//! Dependences that forbid sums in any order.

ghost use Rattle.std.specs.Prelude.{◌≡◌, filter, not, IfOk};
ghost use Rattle.ped_base.specs.Lists as Lists;
ghost use Rattle.ped_tree.specs.Views.{program_tree};
ghost use Rattle.ped_rules.specs.Carried as Carried;
ghost use Rattle.ped_rules.specs.CodeCarried.{AreThose};
ghost use Rattle.ped_rules.specs.ped_steps.specs.Scenes.{IsSceneOf};
ghost use Rattle.ped_edges.specs.CodeEdges.{edge_of};
ghost use Rattle.ped_refs.specs.Occurrences.{name_text};
ghost use Rattle.ped_reduce.specs.Reducing as Spec;

use crate::referring::is_named;
use ped_base::{Name, NoMemory};
use ped_edges::{Edge, first_of, keep_unrejected};
use ped_refs::RefName;
use ped_rules::{Scene, level_at};
use std::alloc::Global;
use std::sync::ledger::Ledger;

/// The first dependence, in the order of the pane, that the DO with this number carries, that is on none of these names, and
/// that the user hasn't rejected (Allen and Kennedy, sections 2.4.1, 5.6; ParaScope).
pub(crate) fn first_carried_beside<L: Ledger>(
    alloc: Global,
    scene: &Scene<L>,
    number: u32,
    names: &[Name],
) -> Result<Option<Edge>, NoMemory>
    requires { IsSceneOf (program_tree scene.now.tree.now) scene.now }
    ensures { IfOk result (Carried.IsFirstOf (program_tree scene.now.tree.now) (Spec.carried_beside (program_tree scene.now.tree.now) number names.now)) }
{
    let edges = edges_beside(alloc, scene, number, names)?;
    Ok(first_of(edges))
}

/// The dependences that the DO with this number carries, that are on none of these names, and that the user hasn't rejected.
fn edges_beside<L: Ledger>(
    alloc: Global,
    scene: &Scene<L>,
    number: u32,
    names: &[Name],
) -> Result<Vec<Edge>, NoMemory>
    requires { IsSceneOf (program_tree scene.now.tree.now) scene.now }
    ensures { IfOk result (λ edges. AreThose (program_tree scene.now.tree.now) (Spec.carried_beside (program_tree scene.now.tree.now) number names.now) edges.items) }
{
    let level = level_at(alloc, scene, number)?;
    let mut edges = scene.graph.edges_at(alloc, number, level)?;
    keep_unrejected(&mut edges);
    keep_beside(&mut edges, names);
    Ok(edges)
}

/// Keeps the dependences that are on none of these names.
fn keep_beside(edges: &mut Vec<Edge>, names: &[Name])
    ensures { edges.new.items ≡ filter (λ e. not (Lists.is_among (edge_of e).name names.now)) edges.old.items }
{
    edges.retain(|edge| !is_one_of(&edge.name, names));
}

/// Whether this, on which a dependence is, is one of these names. The data and the output are none.
fn is_one_of(found: &RefName, names: &[Name]) -> bool
    ensures { result ≡ Lists.is_among (name_text found.now) names.now }
{
    for name in names {
        if is_named(found, name) {
            return true;
        }
    }
    false
}
