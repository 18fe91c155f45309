//! `reject`: the user says that a name's pending dependences carried by a DO don't exist.

ghost use Rattle.std.specs.Prelude.{◌≡◌, ◌+◌, ◌<◌, ◌^◌, ◌&&◌, List, [], IfOk};
ghost use Rattle.std.specs.List.{list_any};
ghost use Rattle.ped_tree.specs.Numbering.{statements_count};
ghost use Rattle.ped_tree.specs.Views.{stmt_tree, stmt_trees, program_tree, head_of};
ghost use Rattle.ped_rules.specs.Carried.{is_carried_by};
ghost use Rattle.ped_rules.specs.Steps.{Answers};
ghost use Rattle.ped_rules.specs.ped_steps.specs.Changes.{IsChange};
ghost use Rattle.ped_rules.specs.ped_steps.specs.Replacing as Replacing;
ghost use Rattle.ped_rules.specs.ped_steps.specs.Scenes.{IsSceneOf};
ghost use Rattle.ped_rules.specs.ped_flow.specs.Questions.{IsLoop};
ghost use Rattle.ped_rules.specs.ped_symbols.specs.NameRefusals.{IsValid};
ghost use Rattle.ped_refs.specs.Occurrences.{name_text};
ghost use Rattle.ped_rules.specs.ped_graph.specs.Dependences.{AreEdges};
ghost use Rattle.ped_edges.specs.CodeEdges.{edge_of, mark_of};
ghost use Rattle.ped_edges.specs.Edges as plain;
ghost use Rattle.ped_loops.specs.Rejecting as Spec;

use ped_base::{Name, NoMemory};
use ped_edges::{Edge, Mark};
use ped_refs::RefName;
use ped_rules::{
    Change, Rule, Scene, StepAnswer, against, all_kept, change_to, level_at, loop_at, program_with,
};
use ped_tree::{Do, Program, Stmt};
use std::alloc::Global;
use std::sync::ledger::Ledger;

/// Puts a name last in the directives of the DO with this number: the user says that the name's pending dependences
/// which the DO carries aren't there (ParaScope). Each statement keeps its number.
///
/// # Errors
///
/// `Refused` exactly where a rule forbids the step: NoLoop, or NothingToReject where the DO carries no pending
/// dependence on the name. No dependence forbids the step.
pub fn reject<L: Ledger>(alloc: Global, scene: &Scene<L>, number: u32, name: &Name) -> StepAnswer
    requires { IsSceneOf (program_tree scene.now.tree.now) scene.now }
    ensures { IfOk result (Answers (Spec.rejecting number name.now) (program_tree scene.now.tree.now)) }
{
    match loop_at(scene.tree, number) {
        Some(d) => {
            return reject_in(alloc, scene, number, d, name);
        }
        None => {
            return Ok(Err(against(Rule::NoLoop, number)));
        }
    }
}

/// The same, where the statement is this DO.
fn reject_in<L: Ledger>(
    alloc: Global,
    scene: &Scene<L>,
    number: u32,
    d: &Do,
    name: &Name,
) -> StepAnswer
    requires scene { IsSceneOf (program_tree scene.now.tree.now) scene.now }
    requires is { IsLoop (program_tree scene.now.tree.now) number (head_of d.now) (stmt_trees d.now.body.items) }
    ensures { IfOk result (Answers (Spec.rejecting number name.now) (program_tree scene.now.tree.now)) }
{
    if !has_pending(alloc, scene, number, name)? {
        return Ok(Err(against(Rule::NothingToReject, number)));
    }
    let change = rejected(alloc, scene, number, d, name)?;
    Ok(Ok(change))
}

/// Whether the DO with this number carries a pending dependence on the name.
fn has_pending<L: Ledger>(
    alloc: Global,
    scene: &Scene<L>,
    number: u32,
    name: &Name,
) -> Result<bool, NoMemory>
    requires { IsSceneOf (program_tree scene.now.tree.now) scene.now }
    ensures { IfOk result (λ found. (all : List plain.Edge) × AreEdges (program_tree scene.now.tree.now) all
        × (found ≡ list_any (λ e. is_carried_by (program_tree scene.now.tree.now) number e && Spec.is_pending_of name.now e) all)) }
{
    let level = level_at(alloc, scene, number)?;
    let edges = scene.graph.edges_at(alloc, number, level)?;
    Ok(is_some_pending(&edges, name))
}

/// Whether one of these dependences is pending and on this name.
fn is_some_pending(edges: &[Edge], name: &Name) -> bool
    ensures { result ≡ list_any (λ e. Spec.is_pending_of name.now (edge_of e)) edges.now }
{
    for edge in edges {
        if is_pending_of(edge, name) {
            return true;
        }
    }
    false
}

/// Whether the dependence is pending and on this name.
fn is_pending_of(edge: &Edge, name: &Name) -> bool
    ensures { result ≡ Spec.is_pending_of name.now (edge_of edge.now) }
{
    is_pending(edge.mark) && is_variable(edge.name, name)
}

fn is_pending(mark: Mark) -> bool
    ensures { result ≡ Spec.is_pending (mark_of mark) }
{
    match mark {
        Mark::Pending => true,
        Mark::Proven | Mark::Rejected => false,
    }
}

/// Whether this, on which a dependence is, is the variable of this name. The data and the output are none.
fn is_variable(found: RefName, name: &Name) -> bool
    ensures { result ≡ Spec.is_variable name.now (name_text found) }
{
    match found {
        RefName::Named(other) => {
            let _bytes = other.as_bytes();
            *name == other
        }
        RefName::In | RefName::Out => false,
    }
}

/// The change to the program in which the name is the last in the directives of the DO with this number.
fn rejected<L: Ledger>(
    alloc: Global,
    scene: &Scene<L>,
    number: u32,
    d: &Do,
    name: &Name,
) -> Result<Change, NoMemory>
    requires scene { IsSceneOf (program_tree scene.now.tree.now) scene.now }
    requires is { IsLoop (program_tree scene.now.tree.now) number (head_of d.now) (stmt_trees d.now.body.items) }
    requires valid { IsValid (Spec.with_directive (program_tree scene.now.tree.now) number name.now) }
    ensures { IfOk result (IsChange (Spec.with_directive (program_tree scene.now.tree.now) number name.now) (Replacing.all_kept (program_tree scene.now.tree.now))) }
{
    let tree = with_directive(alloc, scene.tree, number, d, name)?;
    let keep = all_kept(alloc, scene.tree)?;
    match change_to(alloc, tree, keep)? {
        Some(change) => {
            return Ok(change);
        }
        None => unreachable!(),
    }
}

/// The program in which the name is the last in the directives of the DO with this number.
fn with_directive(
    alloc: Global,
    program: &Program,
    number: u32,
    d: &Do,
    name: &Name,
) -> Result<Program, NoMemory>
    requires few { statements_count (program_tree program.now).body + 1 < 2 ^ 32 }
    requires is { IsLoop (program_tree program.now) number (head_of d.now) (stmt_trees d.now.body.items) }
    ensures tree { IfOk result (λ p. program_tree p ≡ Spec.with_directive (program_tree program.now) number name.now) }
    ensures lines { IfOk result (λ p. p.lines.items ≡ []) }
{
    let mut new = Vec::new(alloc);
    new.push(loop_with(alloc, d, name)?)?;
    program_with(alloc, program, number, &new)
}

/// The DO with the name last in its directives.
fn loop_with(alloc: Global, d: &Do, name: &Name) -> Result<Stmt, NoMemory>
    ensures { IfOk result (λ new. Replacing.alone (stmt_tree new) ≡ Spec.with_rejection name.now (head_of d.now) (stmt_trees d.now.body.items)) }
{
    let mut new = d.copy(alloc)?;
    match new.rejected.push(*name) {
        Ok(()) => Ok(Stmt::of_loop(new)),
        Err(error) => {
            drop(new);
            Err(error)
        }
    }
}
