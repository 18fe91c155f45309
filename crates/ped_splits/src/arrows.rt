//! Arrows between units: dependences that have to be kept, and PRIVATE names that units share.

ghost use Rattle.std.specs.Prelude.{◌≡◌, ◌⊎◌, ◌↔◌, ◌<◌, ◌^◌, ℕ, List, Some, map, length, replicate, false, not, ◌&&◌, slice_index_or, IfOk, OnOk, IsTrue};
ghost use Rattle.std.specs.List.{list_any};
ghost use Rattle.ped_base.specs.Lists.{is_same_text};
ghost use Rattle.ped_bits.specs.Places.{Has};
ghost use Rattle.ped_bits.specs.Reaching.{Arrow};
ghost use Rattle.ped_tree.specs.Views.{head_of, program_tree};
ghost use Rattle.ped_rules.specs.ped_steps.specs.Scenes.{IsSceneOf};
ghost use Rattle.ped_rules.specs.ped_graph.specs.Dependences.{AreEdges};
ghost use Rattle.ped_edges.specs.CodeEdges.{edge_of};
ghost use Rattle.ped_edges.specs.Edges as plain;
ghost use Rattle.ped_refs.specs.Occurrences.{references_of, name_text};
ghost use Rattle.ped_edges.specs.Edges.{is_rejected};
ghost use Rattle.ped_splits.specs.Units as Spec;
ghost use Rattle.ped_splits.specs.CodeUnits.{IsParted, AreBelow, body_of, leads_between, refers_by};

use crate::units::{Parted, home_at};
use ped_base::{Name, NoMemory};
use ped_bits::{Matrix, Row};
use ped_edges::Edge;
use ped_refs::{Occurrence, RefName, occurrences};
use ped_rules::{Scene, level_at};
use std::alloc::Global;
use std::sync::ledger::Ledger;

/// Which units of the DO the arrows lead to from which, one after another.
pub(crate) fn reaching<L: Ledger>(
    alloc: Global,
    scene: &Scene<L>,
    parted: &Parted,
) -> Result<Matrix, NoMemory>
    requires scene { IsSceneOf (program_tree scene.now.tree.now) scene.now }
    requires parted { IsParted (program_tree scene.now.tree.now) parted.now }
    ensures { IfOk result (λ reach. (edges : List plain.Edge) × AreEdges (program_tree scene.now.tree.now) edges
        × Spec.IsClosure (Spec.arrows (program_tree scene.now.tree.now) parted.now.number (head_of parted.now.statement.now) (body_of parted.now) edges) reach) }
{
    let mut arrows = Matrix::new(alloc, parted.units.len())?;
    let level = level_at(alloc, scene, parted.number)?;
    let edges = scene.graph.edges(alloc)?;
    add_dependences(parted, level, &edges, &mut arrows);
    let found = occurrences(alloc, scene.tree)?;
    add_links(alloc, parted, &found, &mut arrows)?;
    let _width = arrows.width();
    arrows.close();
    Ok(arrows)
}

/// Adds an arrow for each of these dependences that has to be kept and leads from a unit to a unit.
fn add_dependences(parted: &Parted, level: u8, edges: &[Edge], arrows: &mut Matrix)
    requires { AreBelow (length arrows.old) parted.now.homes.now }
    ensures width { length arrows.new ≡ length arrows.old }
    ensures arrows { (i j : ℕ) → Arrow arrows.new i j ↔ (Arrow arrows.old i j ⊎ IsTrue (list_any (leads_between level parted.now.number parted.now.homes.now i j) (map edge_of edges.now))) }
{
    for edge in edges {
        add_dependence(parted, level, edge, arrows);
    }
}

/// Adds an arrow for this dependence, where it has to be kept and leads from a unit to a unit.
fn add_dependence(parted: &Parted, level: u8, edge: &Edge, arrows: &mut Matrix)
    requires { AreBelow (length arrows.old) parted.now.homes.now }
    ensures width { length arrows.new ≡ length arrows.old }
    ensures arrows { (i j : ℕ) → Arrow arrows.new i j ↔ (Arrow arrows.old i j ⊎ IsTrue (leads_between level parted.now.number parted.now.homes.now i j (edge_of edge.now))) }
{
    if is_to_keep(level, edge) {
        let source = home_at(parted.number, parted.homes, edge.source.0);
        let sink = home_at(parted.number, parted.homes, edge.sink.0);
        add_between(source, sink, arrows);
    }
}

/// Adds an arrow from one unit to another, where there are both.
fn add_between(from: Option<usize>, to: Option<usize>, arrows: &mut Matrix)
    requires from { (k : ℕ) → from ≡ Some k → k < length arrows.old }
    requires to { (k : ℕ) → to ≡ Some k → k < length arrows.old }
    ensures width { length arrows.new ≡ length arrows.old }
    ensures arrows { (i j : ℕ) → Arrow arrows.new i j ↔ (Arrow arrows.old i j ⊎ IsTrue (Spec.is_unit i from && Spec.is_unit j to)) }
{
    if let Some(source) = from {
        if let Some(sink) = to {
            add_arrow(source, sink, arrows);
        }
    }
}

/// Adds an arrow from one unit to another.
fn add_arrow(from: usize, to: usize, arrows: &mut Matrix)
    requires from { from < length arrows.old }
    requires to { to < length arrows.old }
    ensures width { length arrows.new ≡ length arrows.old }
    ensures arrows { (i j : ℕ) → Arrow arrows.new i j ↔ (Arrow arrows.old i j ⊎ ((i ≡ from) × (j ≡ to))) }
{
    let _width = arrows.width();
    arrows.set(from, to);
}

/// Whether a dependence has to be kept in a DO of this level: it is independent of loops, or carried at this level or deeper,
/// and the user hasn't rejected it.
fn is_to_keep(level: u8, edge: &Edge) -> bool
    ensures { result ≡ (Spec.is_within level (edge_of edge.now).level && not (is_rejected (edge_of edge.now).mark)) }
{
    is_within(level, edge.level) && !edge.mark.is_rejected()
}

fn is_within(level: u8, carried: Option<u8>) -> bool
    ensures { result ≡ Spec.is_within level carried }
{
    match carried {
        Some(carried) => level <= carried,
        None => true,
    }
}

/// Adds arrows both ways between units that refer to one PRIVATE name of the DO.
fn add_links(
    alloc: Global,
    parted: &Parted,
    found: &[Occurrence],
    arrows: &mut Matrix,
) -> Result<(), NoMemory>
    requires { AreBelow (length arrows.old) parted.now.homes.now }
    ensures width { OnOk result (length arrows.new ≡ length arrows.old) }
    ensures arrows { OnOk result ((i j : ℕ) → Arrow arrows.new i j ↔ (Arrow arrows.old i j
        ⊎ IsTrue (list_any (λ x. refers_by parted.now.number parted.now.homes.now (references_of found.now) x i && refers_by parted.now.number parted.now.homes.now (references_of found.now) x j) (head_of parted.now.statement.now).private))) }
{
    for name in parted.statement.private.as_slice() {
        let units = units_with(alloc, parted, found, name, arrows.width())?;
        link(&units, arrows);
    }
    Ok(())
}

/// Those of the units that refer to this name.
fn units_with(
    alloc: Global,
    parted: &Parted,
    found: &[Occurrence],
    name: &Name,
    width: usize,
) -> Result<Row, NoMemory>
    requires { AreBelow width parted.now.homes.now }
    ensures width { IfOk result (λ row. length row ≡ width) }
    ensures units { IfOk result (λ row. (i : ℕ) → slice_index_or row i false ≡ refers_by parted.now.number parted.now.homes.now (references_of found.now) name.now i) }
{
    let mut units = Row::new(alloc, width)?;
    for occurrence in found {
        if is_named(&occurrence.name, name) {
            if let Some(unit) = home_at(parted.number, parted.homes, occurrence.statement) {
                units.set(unit);
            }
        }
    }
    Ok(units)
}

/// Whether the text of a reference's name is this name.
fn is_named(other: &RefName, name: &Name) -> bool
    ensures { result ≡ is_same_text name.now (name_text other.now) }
{
    match other {
        RefName::Named(other) => name.as_bytes() == other.as_bytes(),
        RefName::In => name.as_bytes() == b"(IN)".as_slice(),
        RefName::Out => name.as_bytes() == b"(OUT)".as_slice(),
    }
}

/// Adds arrows from each of these units to each of them.
fn link(units: &Row, arrows: &mut Matrix)
    requires { length units.now ≡ length arrows.old }
    ensures width { length arrows.new ≡ length arrows.old }
    ensures arrows { (i j : ℕ) → Arrow arrows.new i j ↔ (Arrow arrows.old i j ⊎ (Has units.now i × Has units.now j)) }
{
    for unit in 0..units.width() {
        if units.get(unit) {
            link_from(unit, units, arrows);
        }
    }
}

/// Adds arrows from this unit to each of these units.
fn link_from(unit: usize, units: &Row, arrows: &mut Matrix)
    requires unit { unit < length arrows.old }
    requires units { length units.now ≡ length arrows.old }
    ensures width { length arrows.new ≡ length arrows.old }
    ensures arrows { (i j : ℕ) → Arrow arrows.new i j ↔ (Arrow arrows.old i j ⊎ ((i ≡ unit) × Has units.now j)) }
{
    for other in 0..units.width() {
        if units.get(other) {
            add_arrow(unit, other, arrows);
        }
    }
}
