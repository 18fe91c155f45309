//! The dependences of pairs by their views.

ghost use Rattle.std.specs.Prelude.{◌≡◌, ◌++◌, ◌≤◌, ◌<◌, ℕ, List, [], ◌∷◌, Some, map, take, length, slice_get, All, IfOk, OnOk};
ghost use Rattle.std.specs.List.{list_all};
ghost use Rattle.ped_edges.specs.CodeEdges.{edge_of, mark_of, HasAtMostSixLoops};
ghost use Rattle.ped_edges.specs.Edges as plain;
ghost use Rattle.ped_graph.specs.Owners as Owners;
ghost use Rattle.ped_graph.specs.Marks.{mark_by};
ghost use Rattle.ped_graph.specs.Dependences as Spec;
ghost use Rattle.ped_graph.specs.Held as Held;
ghost use Rattle.ped_graph.specs.HeldPairs.{HeldPairEdges, AreHeldEdges, IsHeldAsked, AreHeldAsked};
ghost use Rattle.ped_graph.specs.Levels.{AreByLevel, edge_by};
ghost use Rattle.ped_graph.specs.Held.{pair_by, pairs_by};
ghost use Rattle.ped_graph.specs.HeldSelections.{asks};
ghost use Rattle.ped_graph.specs.CodeFacts.{framed_of, pair_seen, views_in};

use crate::facts::Facts;
use crate::levels::{LevelVectors, levels_of};
use crate::parts::Slot;
use crate::selections::{Question, asks};
use crate::telling::is_telling;
use arrayvec::ArrayVec;
use ped_base::NoMemory;
use ped_edges::{Edge, Mark};
use ped_verdict::{Vector, Verdict, distance, vectors_of as possible_vectors_of};
use ped_views::{Direction, PairView};
use std::alloc::Global;
use std::sync::ledger::Ledger;

/// A pair of references with its view.
#[derive(Clone, Copy)]
pub struct SeenPair<'a> {
    /// What is known of it without a test.
    pub facts: &'a Facts,
    /// Its view.
    pub view: &'a PairView,
}

/// The dependences of pairs, pair by pair, of those pairs alone that may have some that are asked for.
pub fn edges_asked<L: Ledger>(
    alloc: Global,
    pairs: &[Facts],
    verdicts: &[Slot<L>],
    question: Question,
) -> Result<Vec<Edge>, NoMemory>
    requires there { verdicts.now ≡ map Some (views_in verdicts.now) }
    requires paired { length verdicts.now ≡ length pairs.now }
    ensures edges { IfOk result (λ edges. AreHeldAsked (asks question) (pairs_by (map framed_of pairs.now) (views_in verdicts.now)) (map edge_of edges.items)) }
    ensures short { IfOk result (λ edges. All HasAtMostSixLoops edges.items) }
{
    let mut edges = Vec::new(alloc);
    for (place, facts) in pairs.iter().enumerate() {
        let verdict = verdict_at(verdicts, place);
        push_asked(alloc, &mut edges, facts, verdict, question)?;
    }
    Ok(edges)
}

/// Adds the dependences of a pair that was tested, where some may be asked for.
fn push_asked<L: Ledger>(
    alloc: Global,
    edges: &mut Vec<Edge>,
    facts: &Facts,
    verdict: &Verdict<L>,
    question: Question,
) -> Result<(), NoMemory>
    ensures edges { OnOk result ((added : List plain.Edge) × (map edge_of edges.new.items ≡ map edge_of edges.old.items ++ added)
        × IsHeldAsked (asks question) (pair_by (framed_of facts.now) verdict.now) added) }
    ensures short { OnOk result (All HasAtMostSixLoops edges.old.items → All HasAtMostSixLoops edges.new.items) }
{
    if asks(question, facts.source.0, facts.sink.0) {
        return push_tested(alloc, edges, facts, verdict);
    }
    verdict.has_list();
    Ok(())
}

/// Adds the dependences of a pair that was tested.
fn push_tested<L: Ledger>(
    alloc: Global,
    edges: &mut Vec<Edge>,
    facts: &Facts,
    verdict: &Verdict<L>,
) -> Result<(), NoMemory>
    ensures edges { OnOk result ((added : List plain.Edge) × (map edge_of edges.new.items ≡ map edge_of edges.old.items ++ added)
        × HeldPairEdges (pair_by (framed_of facts.now) verdict.now) added) }
    ensures short { OnOk result (All HasAtMostSixLoops edges.old.items → All HasAtMostSixLoops edges.new.items) }
{
    let vectors = verdict.vectors(alloc)?;
    let pair = SeenPair {
        facts,
        view: verdict.view(),
    };
    push_shared(alloc, edges, &pair, loop_count(pair.view), vectors)
}

/// The dependences of a pair with this view, which isn't tested: no verdict is made and no test counted.
pub fn edges_of_pair(alloc: Global, facts: &Facts, view: &PairView) -> Result<Vec<Edge>, NoMemory>
    ensures edges { IfOk result (λ edges. HeldPairEdges (pair_by (framed_of facts.now) view.now) (map edge_of edges.items)) }
    ensures short { IfOk result (λ edges. All HasAtMostSixLoops edges.items) }
{
    let mut edges = Vec::new(alloc);
    let vectors = possible_vectors_of(alloc, view)?;
    let pair = SeenPair { facts, view };
    push_shared(alloc, &mut edges, &pair, loop_count(view), vectors)?;
    Ok(edges)
}

/// The verdict at a place of verdicts that are all there.
pub(crate) fn verdict_at<L: Ledger>(verdicts: &[Slot<L>], place: usize) -> &Verdict<L>
    requires there { verdicts.now ≡ map Some (views_in verdicts.now) }
    requires within { place < length verdicts.now }
    ensures { slice_get (views_in verdicts.now) place ≡ Some result.now }
{
    verdicts[place].verdict()
}

/// Adds the dependences of a pair with this many common loops and these vectors, none where the references mean
/// different private copies.
fn push_shared(
    alloc: Global,
    edges: &mut Vec<Edge>,
    pair: &SeenPair<'_>,
    loops: u8,
    vectors: Vec<Vector>,
) -> Result<(), NoMemory>
    requires loops { loops ≡ length pair.now.view.now.loops }
    requires few { loops ≤ 6 }
    requires ordered { AreByLevel loops vectors.items }
    ensures edges { OnOk result (map edge_of edges.new.items ≡ map edge_of edges.old.items ++ Held.held_edges (pair_seen pair.now) vectors.items) }
    ensures short { OnOk result (All HasAtMostSixLoops edges.old.items → All HasAtMostSixLoops edges.new.items) }
{
    let shared = shared_vectors(alloc, pair.facts.owner, vectors);
    let levels = levels_of(pair.facts.is_forward, loops, &shared);
    push_levels(alloc, edges, pair, &levels)
}

/// The vectors that are left of a pair whose references mean the private copies of a DO at this level, 0 for none; none
/// where they mean different ones.
pub(crate) fn shared_vectors(alloc: Global, owner: Option<u8>, vectors: Vec<Vector>) -> Vec<Vector>
    ensures edges { (p : Held.Pair) → p.owner ≡ owner → Held.held_divided p result.items ≡ Held.held_edges p vectors.items }
    ensures ordered { (loops : ℕ) → AreByLevel loops vectors.items → AreByLevel loops result.items }
{
    match owner {
        Some(level) => within_iteration(level, vectors),
        None => Vec::new(alloc),
    }
}

/// Adds the dependences of a pair, level by level.
fn push_levels(
    alloc: Global,
    edges: &mut Vec<Edge>,
    pair: &SeenPair<'_>,
    levels: &[LevelVectors<'_>],
) -> Result<(), NoMemory>
    ensures edges { OnOk result (map edge_of edges.new.items ≡ map edge_of edges.old.items ++ map (edge_by (pair_seen pair.now)) levels.now) }
    ensures short { OnOk result (All HasAtMostSixLoops edges.old.items → All HasAtMostSixLoops edges.new.items) }
{
    for part in levels {
        push_edge(alloc, edges, pair, part)?;
    }
    Ok(())
}

/// How many common loops a pair has.
pub(crate) fn loop_count(view: &PairView) -> u8
    ensures count { result ≡ length view.now.loops }
    ensures few { result ≤ 6 }
{
    view.loops.len() as u8
}

/// The vectors with `=` at the first levels.
fn within_iteration(level: u8, vectors: Vec<Vector>) -> Vec<Vector>
    ensures { result.items ≡ Owners.within_iteration level vectors.items }
{
    if level == 0 {
        return vectors;
    }
    let mut kept = vectors;
    kept.retain(|vector| is_within(level, vector.directions()));
    kept
}

/// Whether the first directions are all `=`.
fn is_within(level: u8, directions: &[Direction]) -> bool
    ensures { result ≡ list_all Owners.is_same (take level directions.now) }
{
    let levels = level as usize;
    if levels < directions.len() {
        return all_same(&directions[..levels]);
    }
    all_same(directions)
}

/// Whether directions are all `=`.
fn all_same(directions: &[Direction]) -> bool
    ensures { result ≡ list_all Owners.is_same directions.now }
{
    directions.iter().all(|direction| is_same(*direction))
}

fn is_same(direction: Direction) -> bool
    ensures { result ≡ Owners.is_same direction }
{
    match direction {
        Direction::Same => true,
        Direction::Before => false,
        Direction::After => false,
    }
}

/// Adds the dependence of a level.
fn push_edge(
    alloc: Global,
    edges: &mut Vec<Edge>,
    pair: &SeenPair<'_>,
    part: &LevelVectors<'_>,
) -> Result<(), NoMemory>
    ensures edges { OnOk result (map edge_of edges.new.items ≡ map edge_of edges.old.items ++ edge_by (pair_seen pair.now) part.now ∷ []) }
    ensures short { OnOk result (All HasAtMostSixLoops edges.old.items → All HasAtMostSixLoops edges.new.items) }
{
    let vectors = part.vectors.to_vec(alloc)?;
    let distances = distances_of(pair.view);
    let distances = distances.as_slice().to_vec(alloc)?;
    edges.push(Edge {
        source: pair.facts.source,
        sink: pair.facts.sink,
        name: pair.facts.name,
        kind: pair.facts.kind,
        level: part.level,
        vectors,
        distances,
        mark: mark_of(is_proven(pair), &pair.facts.rejecting, part.level),
    })?;
    Ok(())
}

/// Whether a vector is of a level: its first direction other than `=` is `<` and is there, or it has none.
pub(crate) fn is_of(level: Option<u8>, directions: &[Direction]) -> bool
    requires { length directions.now ≤ 6 }
    ensures { result ≡ Spec.is_of level (Spec.carriage_from 1 directions.now) }
{
    for (place, direction) in directions.iter().enumerate() {
        match direction {
            Direction::Before => return is_level(level, place as u8 + 1),
            Direction::After => return false,
            Direction::Same => {}
        }
    }
    level.is_none()
}

/// Whether this is the level of a loop.
fn is_level(level: Option<u8>, other: u8) -> bool
    ensures { result ≡ Spec.is_of level (Spec.carried other) }
{
    match level {
        Some(level) => other == level,
        None => false,
    }
}

/// The distance in each common loop.
pub(crate) fn distances_of(view: &PairView) -> ArrayVec<Option<i128>, 6>
    ensures distances { result.items ≡ Spec.distances_of view.now }
    ensures short { length result.items ≤ 6 }
{
    let mut distances = ArrayVec::new();
    for place in 0..loop_count(view) {
        distances.push(distance(view, place as usize));
    }
    distances
}

/// Whether the dependences of a pair are proven.
pub(crate) fn is_proven(pair: &SeenPair<'_>) -> bool
    ensures { result ≡ (pair_seen pair.now).proven }
{
    pair.facts.firm && is_telling(pair.view)
}

/// The mark of the dependence of a level of a pair, of which it is known whether it is proven.
pub(crate) fn mark_of(proven: bool, rejecting: &[bool], level: Option<u8>) -> Mark
    ensures { mark_of result ≡ mark_by proven (Held.rejects_at rejecting.now level) }
{
    if proven {
        return Mark::Proven;
    }
    if rejects_at(rejecting, level) {
        return Mark::Rejected;
    }
    Mark::Pending
}

/// Whether the loop at a level rejects the variable.
fn rejects_at(rejecting: &[bool], level: Option<u8>) -> bool
    ensures { result ≡ Held.rejects_at rejecting.now level }
{
    match level {
        Some(level) => match rejecting.get((level as usize).saturating_sub(1)) {
            Some(rejects) => *rejects,
            None => false,
        },
        None => false,
    }
}
