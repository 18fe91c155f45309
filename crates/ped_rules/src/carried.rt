//! Dependences that forbid a step, since a DO carries them (Allen and Kennedy, sections 2.2.5, 5.2).

ghost use Rattle.std.specs.Prelude.{◌≡◌, ◌+◌, ◌<◌, ◌^◌, map, filter, length, slice_get, All, IfOk};
ghost use Rattle.std.specs.List.{list_any};
ghost use Rattle.ped_tree.specs.Views.{program_tree, stmt_trees, head_of};
ghost use Rattle.ped_loop_runs.specs.ped_flow.specs.PlainBounds.{nest_round};
ghost use Rattle.ped_loop_runs.specs.ped_steps.specs.Scenes.{IsSceneOf};
ghost use Rattle.ped_edges.specs.CodeEdges.{edge_of, HasAtMostSixLoops};
ghost use Rattle.ped_edges.specs.Edges as plain;
ghost use Rattle.ped_loop_runs.specs.ped_graph.specs.Dependences.{AreEdges};
ghost use Rattle.ped_rules.specs.Carried as Spec;
ghost use Rattle.ped_rules.specs.CodeCarried.{AreThose};

use ped_base::NoMemory;
use ped_edges::{Edge, first_of, keep_unrejected};
use ped_loop_runs::{Scene, loops_round};
use ped_verdict::Vector;
use ped_views::Direction;
use std::alloc::Global;
use std::sync::ledger::Ledger;

/// The first dependence, in the order of the pane, that the DO with this number carries and the user hasn't rejected
/// (Allen and Kennedy, section 5.2; ParaScope).
pub fn first_carried<L: Ledger>(
    alloc: Global,
    scene: &Scene<L>,
    number: u32,
) -> Result<Option<Edge>, NoMemory>
    requires { IsSceneOf (program_tree scene.now.tree.now) scene.now }
    ensures { IfOk result (Spec.IsFirstOf (program_tree scene.now.tree.now) (Spec.carried (program_tree scene.now.tree.now) number)) }
{
    let edges = carried_edges(alloc, scene, number)?;
    Ok(first_of(edges))
}

/// The first dependence, in the order of the pane, that the interchange of the DO with this number and the next one in
/// it turns around, and that the user hasn't rejected (Allen and Kennedy, section 5.2; ParaScope).
pub fn first_crossing<L: Ledger>(
    alloc: Global,
    scene: &Scene<L>,
    number: u32,
) -> Result<Option<Edge>, NoMemory>
    requires { IsSceneOf (program_tree scene.now.tree.now) scene.now }
    ensures { IfOk result (Spec.IsFirstOf (program_tree scene.now.tree.now) (Spec.crossing (program_tree scene.now.tree.now) number)) }
{
    let level = level_at(alloc, scene, number)?;
    let mut edges = carried_edges(alloc, scene, number)?;
    keep_crossing(&mut edges, level);
    Ok(first_of(edges))
}

/// The dependences that the DO with this number carries and the user hasn't rejected, in the order of the pane. For steps
/// that not each of them forbids.
pub fn carried_edges<L: Ledger>(
    alloc: Global,
    scene: &Scene<L>,
    number: u32,
) -> Result<Vec<Edge>, NoMemory>
    requires { IsSceneOf (program_tree scene.now.tree.now) scene.now }
    ensures { IfOk result (λ edges. AreThose (program_tree scene.now.tree.now) (Spec.carried (program_tree scene.now.tree.now) number) edges.items) }
{
    let level = level_at(alloc, scene, number)?;
    let mut edges = scene.graph.edges_at(alloc, number, level)?;
    keep_unrejected(&mut edges);
    Ok(edges)
}

/// The level of the DO with this number, 1 for the outermost (Allen and Kennedy, section 2.2.2).
pub fn level_at<L: Ledger>(alloc: Global, scene: &Scene<L>, number: u32) -> Result<u8, NoMemory>
    requires { IsSceneOf (program_tree scene.now.tree.now) scene.now }
    ensures { IfOk result (λ level. level ≡ Spec.level_at (program_tree scene.now.tree.now) number) }
{
    let round = loops_round(alloc, scene.tree, number)?;
    Ok(round.len() as u8 + 1)
}

/// Keeps the dependences with a vector that has `>` after this level.
fn keep_crossing(edges: &mut Vec<Edge>, level: u8)
    ensures { edges.new.items ≡ filter (λ e. Spec.has_after level (edge_of e)) edges.old.items }
{
    edges.retain(|edge| has_after(level, &edge.vectors));
}

/// Whether one of these vectors has `>` after this level.
fn has_after(level: u8, vectors: &[Vector]) -> bool
    ensures { result ≡ list_any (λ v. Spec.is_after (slice_get v level)) vectors.now }
{
    for vector in vectors {
        if is_after(level, vector.directions()) {
            return true;
        }
    }
    false
}

/// Whether the vector has `>` after this level.
pub fn is_after(level: u8, directions: &[Direction]) -> bool
    ensures { result ≡ Spec.is_after (slice_get directions.now level) }
{
    match directions.get(level as usize) {
        Some(direction) => *direction == Direction::After,
        None => false,
    }
}
