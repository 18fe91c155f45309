//! The dependence pane of pairs, row by row. So the dependences of one pair alone are known at a time, and none is kept.

ghost use Rattle.std.specs.Prelude.{◌≡◌, ◌+◌, ◌≤◌, ◌++◌, [], ◌∷◌, List, Some, map, length, All, IfOk, OnOk};
ghost use Rattle.ped_edges.specs.Edges as plain;
ghost use Rattle.ped_edges.specs.Rows as shown;
ghost use Rattle.ped_edges.specs.Rows.{edge_row};
ghost use Rattle.ped_graph.specs.HeldPairs.{HeldPairEdges, AreHeldEdges, rows_of};
ghost use Rattle.ped_graph.specs.Held.{pair_by, pairs_by, held_edges};
ghost use Rattle.ped_graph.specs.Levels.{AreByLevel, edge_by};
ghost use Rattle.ped_graph.specs.Dependences as Spec;
ghost use Rattle.ped_graph.specs.CodeFacts.{framed_of, pair_seen, views_in};

use crate::edges::{
    SeenPair, distances_of, is_proven, loop_count, mark_of, shared_vectors, verdict_at,
};
use crate::facts::Facts;
use crate::levels::{LevelVectors, has_levels, levels_of};
use crate::parts::Slot;
use ped_base::{Bytes, NoMemory, push_number};
use ped_edges::{ShownEdge, push_row};
use ped_verdict::{Vector, Verdict};
use std::alloc::Global;
use std::sync::ledger::Ledger;

/// The dependence pane of pairs.
pub fn pane_of_pairs<L: Ledger>(
    alloc: Global,
    pairs: &[Facts],
    verdicts: &[Slot<L>],
) -> Result<Bytes, NoMemory>
    requires there { verdicts.now ≡ map Some (views_in verdicts.now) }
    requires paired { length verdicts.now ≡ length pairs.now }
    ensures { IfOk result (λ pane. (edges : List plain.Edge) × AreHeldEdges (pairs_by (map framed_of pairs.now) (views_in verdicts.now)) edges × (pane ≡ shown.edges_pane edges)) }
{
    let mut rows = Bytes::new(alloc);
    let mut count = 0;
    for (place, facts) in pairs.iter().enumerate() {
        let added = push_pair(alloc, &mut rows, facts, verdict_at(verdicts, place))?;
        count = counted(count, added, rows.as_slice());
    }
    pane_of_rows(alloc, count, &rows)
}

/// Adds the rows of a pair that was tested, and says how many they are.
fn push_pair<L: Ledger>(
    alloc: Global,
    rows: &mut Bytes,
    facts: &Facts,
    verdict: &Verdict<L>,
) -> Result<usize, NoMemory>
    ensures { IfOk result (λ added. (edges : List plain.Edge) × HeldPairEdges (pair_by (framed_of facts.now) verdict.now) edges
        × (rows.new ≡ rows.old ++ rows_of edges) × (added ≡ length edges)) }
{
    let vectors = verdict.vectors(alloc)?;
    let pair = SeenPair {
        facts,
        view: verdict.view(),
    };
    push_seen(alloc, rows, &pair, loop_count(pair.view), vectors)
}

/// Adds the rows of a pair with this many common loops and these vectors, and says how many they are.
fn push_seen(
    alloc: Global,
    rows: &mut Bytes,
    pair: &SeenPair<'_>,
    loops: u8,
    vectors: Vec<Vector>,
) -> Result<usize, NoMemory>
    requires loops { loops ≡ length pair.now.view.now.loops }
    requires few { loops ≤ 6 }
    requires ordered { AreByLevel loops vectors.items }
    ensures { IfOk result (λ added. (rows.new ≡ rows.old ++ rows_of (held_edges (pair_seen pair.now) vectors.items))
        × (added ≡ length (held_edges (pair_seen pair.now) vectors.items))) }
{
    let shared = shared_vectors(alloc, pair.facts.owner, vectors);
    if !has_levels(pair.facts.is_forward, &shared) {
        return Ok(0);
    }
    let levels = levels_of(pair.facts.is_forward, loops, &shared);
    push_levels(rows, pair, &levels)
}

/// Adds a row for each level of a pair, and says how many they are.
fn push_levels(
    rows: &mut Bytes,
    pair: &SeenPair<'_>,
    levels: &[LevelVectors<'_>],
) -> Result<usize, NoMemory>
    ensures { IfOk result (λ added. (rows.new ≡ rows.old ++ rows_of (map (edge_by (pair_seen pair.now)) levels.now)) × (added ≡ length levels.now)) }
{
    if levels.is_empty() {
        return Ok(0);
    }
    let proven = is_proven(pair);
    let distances = distances_of(pair.view);
    for part in levels {
        push_one(rows, pair, proven, &distances, part)?;
    }
    Ok(levels.len())
}

/// Adds the row of a level.
fn push_one(
    rows: &mut Bytes,
    pair: &SeenPair<'_>,
    proven: bool,
    distances: &[Option<i128>],
    part: &LevelVectors<'_>,
) -> Result<(), NoMemory>
    requires proven { proven ≡ (pair_seen pair.now).proven }
    requires distances { distances.now ≡ Spec.distances_of pair.now.view.now }
    requires short { length distances.now ≤ 6 }
    ensures { OnOk result (rows.new ≡ rows.old ++ (edge_row (edge_by (pair_seen pair.now) part.now) ++ 10 ∷ [])) }
{
    let edge = ShownEdge {
        source: pair.facts.source,
        sink: pair.facts.sink,
        name: &pair.facts.name,
        kind: pair.facts.kind,
        level: part.level,
        vectors: part.vectors,
        distances,
        mark: mark_of(proven, &pair.facts.rejecting, part.level),
    };
    push_row(rows, &edge)?;
    rows.push(b'\n')
}

/// A number of dependences, and so many more. All have rows.
fn counted(count: u64, added: usize, rows: &[u8]) -> u64
    requires { count + added ≤ length rows.now }
    ensures { result ≡ count + added }
{
    count + added as u64
}

/// The dependence pane by its rows, of which there are this many.
fn pane_of_rows(alloc: Global, count: u64, rows: &Bytes) -> Result<Bytes, NoMemory>
    ensures { IfOk result (λ pane. (edges : List plain.Edge) → count ≡ length edges → rows.now ≡ rows_of edges → pane ≡ shown.edges_pane edges) }
{
    let mut pane = Bytes::new(alloc);
    pane.extend_from_slice(b"dependences ")?;
    push_number(&mut pane, count)?;
    pane.push(b'\n')?;
    pane.extend_from_slice(rows.as_slice())?;
    Ok(pane)
}
