//! Dependences of the new program that lead from the second body to the first. No verdict is made and no test counted.

ghost use Rattle.std.specs.Prelude.{◌≡◌, ◌+◌, ◌<◌, ◌^◌, ◌∷◌, ◌&&◌, List, [], Some, nat_le, nat_lt, map, filter, length, slice_get, All, IfOk, MatchOption};
ghost use Rattle.ped_tree.specs.Tree.{ProgramTree};
ghost use Rattle.ped_tree.specs.Views.{program_tree, stmt_trees};
ghost use Rattle.ped_tree.specs.Numbering.{statements_count};
ghost use Rattle.ped_rules.specs.ped_symbols.specs.Kinds.{table_of};
ghost use Rattle.ped_rules.specs.ped_symbols.specs.NameRefusals.{IsValid};
ghost use Rattle.ped_rules.specs.ped_graph.specs.DependencePane as Pane;
ghost use Rattle.ped_rules.specs.ped_graph.specs.Held.{held_of};
ghost use Rattle.ped_edges.specs.CodeEdges.{edge_of, HasAtMostSixLoops};
ghost use Rattle.ped_refs.specs.References.{Reference, references, pairs};
ghost use Rattle.ped_splits.specs.CodeFusing.{bodies_of, key_is_back, StandsInside, forbids_at, IsFirstAmong, IsFirstBack};
ghost use Rattle.ped_splits.specs.Fusing as Fusing;

use crate::joining::opened_at;
use crate::neighbours::Pair;
use ped_base::NoMemory;
use ped_edges::Edge;
use ped_rules::{PairKey, Prepared, prepare};
use ped_tree::constants::Consts;
use ped_tree::{Program, count_statements};
use std::alloc::Global;

/// The places of the two bodies in the new program.
#[derive(Clone, Copy)]
pub(crate) struct Bodies {
    /// The number of the new DO.
    pub(crate) number: u32,
    /// The number of the second DO before the step, and that of the first statement of the second body after it.
    pub(crate) second: u32,
    /// The number after the second body.
    pub(crate) behind: u32,
    /// The level of the new DO.
    pub(crate) level: u8,
}

/// The first dependence that forbids the step, with the present numbers: the new DO carries it from the second body to the first
/// one, and the user hasn't rejected it (Allen and Kennedy, section 6.2.5). These are the new program and its named constants.
pub(crate) fn first_back(
    alloc: Global,
    new: &Program,
    consts: &Consts,
    pair: &Pair,
    level: u8,
) -> Result<Option<Edge>, NoMemory>
    requires valid { IsValid (program_tree new.now) }
    requires constants { consts.now ≡ (table_of (program_tree new.now)).constants }
    requires few { pair.now.number + 1 + statements_count (stmt_trees pair.now.own.now.body.items) + statements_count (stmt_trees pair.now.next.now.body.items) < 2 ^ 32 }
    ensures { IfOk result (IsFirstBack (program_tree new.now) (bodies_of pair.now level) (pairs (references (program_tree new.now)))) }
{
    let second = pair.next_number();
    let bodies = Bodies {
        number: pair.number,
        second,
        behind: second + count_statements(&pair.next.body),
        level,
    };
    let prepared = prepare(alloc, new, consts)?;
    first_among(alloc, &prepared, &bodies)
}

/// The first of these dependences among those of the pairs of the new program.
fn first_among(
    alloc: Global,
    prepared: &Prepared,
    bodies: &Bodies,
) -> Result<Option<Edge>, NoMemory>
    requires held { (u : ProgramTree) × (prepared.now ≡ held_of u) }
    requires order { bodies.now.number < bodies.now.second }
    requires second { bodies.now.second < 2 ^ 32 }
    requires behind { bodies.now.behind < 2 ^ 32 }
    ensures { IfOk result (λ found. (u : ProgramTree) → prepared.now ≡ held_of u → IsFirstBack u bodies.now (pairs (references u)) found) }
{
    for n in 0..prepared.frame.pair_count() {
        match first_at(alloc, prepared, bodies, n)? {
            Some(edge) => {
                return Ok(Some(edge));
            }
            None => {}
        }
    }
    Ok(None)
}

/// The first of these dependences among those of a pair of the new program.
fn first_at(
    alloc: Global,
    prepared: &Prepared,
    bodies: &Bodies,
    n: u64,
) -> Result<Option<Edge>, NoMemory>
    requires held { (u : ProgramTree) × (prepared.now ≡ held_of u) × (n < length (pairs (references u))) }
    requires order { bodies.now.number < bodies.now.second }
    requires second { bodies.now.second < 2 ^ 32 }
    requires behind { bodies.now.behind < 2 ^ 32 }
    ensures { IfOk result (λ found. (u : ProgramTree) (p : Reference × Reference) → prepared.now ≡ held_of u → slice_get (pairs (references u)) n ≡ Some p
        → IsFirstBack u bodies.now (p ∷ []) found) }
{
    let key = prepared.frame.key(n);
    if !goes_back(&key, bodies) {
        return Ok(None);
    }
    let edges = prepared.edges_of(alloc, n)?;
    Ok(first_of(edges, bodies))
}

/// Whether the source is in the second body, and the sink in the first one.
fn goes_back(key: &PairKey, bodies: &Bodies) -> bool
    requires { bodies.now.number < bodies.now.second }
    ensures { result ≡ key_is_back bodies.now key.now }
{
    is_in(key.source.0, bodies.second, bodies.behind)
        && is_in(key.sink.0, bodies.number + 1, bodies.second)
}

/// Whether the number is at least `first` and below `behind`.
fn is_in(number: u32, first: u32, behind: u32) -> bool
    ensures { result ≡ (nat_le first number && nat_lt number behind) }
{
    first <= number && number < behind
}

/// The first of these dependences of a pair that the new DO carries and the user hasn't rejected, with the present numbers.
fn first_of(edges: Vec<Edge>, bodies: &Bodies) -> Option<Edge>
    requires short { All HasAtMostSixLoops edges.items }
    requires inside { All (StandsInside bodies.now) edges.items }
    requires second { bodies.now.second < 2 ^ 32 }
    requires behind { bodies.now.behind < 2 ^ 32 }
    ensures { IsFirstAmong bodies.now (map edge_of edges.items) result }
{
    let mut edges = edges;
    keep_forbidding(&mut edges, bodies.level);
    match first_kept(edges) {
        Some(edge) => {
            return Some(with_present_numbers(edge, bodies.second));
        }
        None => {
            return None;
        }
    }
}

/// Keeps the dependences that the DO of this level carries and the user hasn't rejected.
fn keep_forbidding(edges: &mut Vec<Edge>, level: u8)
    ensures { edges.new.items ≡ filter (λ e. forbids_at level (edge_of e)) edges.old.items }
{
    edges.retain(|edge| forbids(edge, level));
}

/// The first of these dependences, where there is one.
fn first_kept(edges: Vec<Edge>) -> Option<Edge>
    ensures { MatchOption result (edges.items ≡ []) (λ e. (rest : List Edge) × (edges.items ≡ e ∷ rest)) }
{
    let mut edges = edges;
    if edges.is_empty() {
        return None;
    }
    Some(edges.swap_remove(0))
}

/// Whether the DO of this level carries the dependence, and the user hasn't rejected it.
fn forbids(edge: &Edge, level: u8) -> bool
    ensures { result ≡ forbids_at level (edge_of edge.now) }
{
    is_level(edge.level, level) && !edge.mark.is_rejected()
}

fn is_level(level: Option<u8>, other: u8) -> bool
    ensures { result ≡ Pane.is_level other level }
{
    match level {
        Some(level) => level == other,
        None => false,
    }
}

/// The dependence with the numbers that its statements have in the present program, where the second DO has this number.
fn with_present_numbers(edge: Edge, number: u32) -> Edge
    requires source { edge.source.0 + 1 < 2 ^ 32 }
    requires sink { edge.sink.0 + 1 < 2 ^ 32 }
    ensures present { edge_of result ≡ Fusing.with_present_numbers number (edge_of edge) }
    ensures short { HasAtMostSixLoops edge → HasAtMostSixLoops result }
{
    Edge {
        source: (opened_at(number, edge.source.0), edge.source.1),
        sink: (opened_at(number, edge.sink.0), edge.sink.1),
        name: edge.name,
        kind: edge.kind,
        level: edge.level,
        vectors: edge.vectors,
        distances: edge.distances,
        mark: edge.mark,
    }
}
