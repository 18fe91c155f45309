//! Dependences that forbid a step with evidence: those that are open, as the evidence doesn't disprove the vectors that
//! count.

ghost use Rattle.std.specs.Prelude.{◌≡◌, map, filter, not, ◌&&◌, slice_get, List, IfOk};
ghost use Rattle.std.specs.List.{list_any};
ghost use Rattle.ped_tree.specs.Tree.{ProgramTree};
ghost use Rattle.ped_tree.specs.Views.{program_tree};
ghost use Rattle.ped_edges.specs.CodeEdges.{edge_of};
ghost use Rattle.ped_evidence.specs.Evidence.{disproves};
ghost use Rattle.ped_evidence.specs.Lines.{lines_of, line_holds};
ghost use Rattle.ped_rules.specs.Carried as Carried;
ghost use Rattle.ped_rules.specs.ped_steps.specs.Scenes.{IsSceneOf};
ghost use Rattle.ped_loops.specs.ByEvidence as Spec;

use ped_base::NoMemory;
use ped_edges::{Edge, first_of};
use ped_evidence::{EvidenceLine, is_disproved, judge};
use ped_rules::{Scene, carried_edges, is_after, level_at};
use std::alloc::Global;
use std::sync::ledger::Ledger;

/// The first dependence, in the order of the pane, that the DO with this number carries, that the user hasn't rejected
/// and that is open.
pub(crate) fn first_open<L: Ledger>(
    alloc: Global,
    scene: &Scene<L>,
    number: u32,
    evidence: &[EvidenceLine],
) -> Result<Option<Edge>, NoMemory>
    requires { IsSceneOf (program_tree scene.now.tree.now) scene.now }
    ensures { IfOk result (Carried.IsFirstOf (program_tree scene.now.tree.now) (Spec.carried_open (program_tree scene.now.tree.now) number (lines_of evidence.now))) }
{
    let held = judge(alloc, scene.tree, scene.symbols, evidence)?;
    let mut edges = carried_edges(alloc, scene, number)?;
    keep_open(&mut edges, evidence, held.as_slice());
    Ok(first_of(edges))
}

/// The first of them with a vector that has `>` for the next DO in it and that the evidence doesn't disprove.
pub(crate) fn first_open_crossing<L: Ledger>(
    alloc: Global,
    scene: &Scene<L>,
    number: u32,
    evidence: &[EvidenceLine],
) -> Result<Option<Edge>, NoMemory>
    requires { IsSceneOf (program_tree scene.now.tree.now) scene.now }
    ensures { IfOk result (Carried.IsFirstOf (program_tree scene.now.tree.now) (Spec.crossing_open (program_tree scene.now.tree.now) number (lines_of evidence.now))) }
{
    let level = level_at(alloc, scene, number)?;
    let held = judge(alloc, scene.tree, scene.symbols, evidence)?;
    let mut edges = carried_edges(alloc, scene, number)?;
    keep_open_after(&mut edges, level, evidence, held.as_slice());
    Ok(first_of(edges))
}

/// Keeps the dependences that are open, in a program in which these lines hold.
fn keep_open(edges: &mut Vec<Edge>, evidence: &[EvidenceLine], held: &[bool])
    ensures { (t : ProgramTree) → held.now ≡ map (line_holds t) evidence.now
        → edges.new.items ≡ filter (λ e. Spec.is_open t (lines_of evidence.now) (edge_of e)) edges.old.items }
{
    edges.retain(|edge| is_open(edge, evidence, held));
}

/// Keeps the dependences with a vector that has `>` after this level and isn't disproved.
fn keep_open_after(edges: &mut Vec<Edge>, level: u8, evidence: &[EvidenceLine], held: &[bool])
    ensures { (t : ProgramTree) → held.now ≡ map (line_holds t) evidence.now
        → edges.new.items ≡ filter (λ e. Spec.has_open_after t (lines_of evidence.now) level (edge_of e)) edges.old.items }
{
    edges.retain(|edge| has_open_after(edge, level, evidence, held));
}

/// Whether the dependence is open: not each of its vectors is disproved.
fn is_open(edge: &Edge, evidence: &[EvidenceLine], held: &[bool]) -> bool
    ensures { (t : ProgramTree) → held.now ≡ map (line_holds t) evidence.now → result ≡ Spec.is_open t (lines_of evidence.now) (edge_of edge.now) }
{
    for vector in &edge.vectors {
        if !is_disproved(edge.source, edge.sink, vector.directions(), evidence, held) {
            return true;
        }
    }
    false
}

/// Whether a vector of the dependence has `>` after this level and isn't disproved.
fn has_open_after(edge: &Edge, level: u8, evidence: &[EvidenceLine], held: &[bool]) -> bool
    ensures { (t : ProgramTree) → held.now ≡ map (line_holds t) evidence.now → result ≡ Spec.has_open_after t (lines_of evidence.now) level (edge_of edge.now) }
{
    for vector in &edge.vectors {
        let directions = vector.directions();
        if is_after(level, directions)
            && !is_disproved(edge.source, edge.sink, directions, evidence, held)
        {
            return true;
        }
    }
    false
}
