//! Which pairs of a changed program keep the verdicts of a graph, and the verdicts of the other pairs, which are
//! tested.

ghost use Rattle.std.specs.Prelude.{◌≡◌, ◌+◌, ◌≤◌, ◌<◌, [], ℕ, List, All, IsTrue, Some, None, map, length, nat_eq, option_map, slice_get, IfOk, IfSome, OnOk};
ghost use Rattle.indexmap.specs.IndexMap.{get};
ghost use Rattle.ped_tree.specs.Views.{program_tree};
ghost use Rattle.ped_views.specs.Views.{View};
ghost use Rattle.ped_refs.specs.References.{Reference, outermost, references, pairs};
ghost use Rattle.ped_refs.specs.Occurrences.{references_of, pair_at, IsWithin};
ghost use Rattle.ped_graph.specs.Dependences.{view_of};
ghost use Rattle.ped_graph.specs.Held.{Framed, pair_by, frame_of, held_of};
ghost use Rattle.ped_graph.specs.Keys.{key_shown};
ghost use Rattle.ped_graph.specs.KnownProgram.{IsKnown, IsRound, AreSides};
ghost use Rattle.ped_graph.specs.Keeping.{IsOneToOne};
ghost use Rattle.ped_update.specs.Fresh.{fresh_pairs};
ghost use Rattle.ped_update.specs.Matching as Matching;

use indexmap::IndexMap;
use ped_base::NoMemory;
use ped_graph::preparing::{Known, Round, enter, frame_by, occurrence_at, sides_of, view_at};
use ped_graph::rounds::{have_same_outermost, outermost};
use ped_graph::sides::{Side, side_there, tells_view};
use ped_graph::testing::tested;
use ped_graph::{Graph, Kept, PairKey, Parts, Slot};
use ped_refs::Pair;
use ped_tree::names::NameSet;
use ped_verdict::Steps;
use ped_views::PairView;
use std::alloc::Global;
use std::sync::ledger::Ledger;

/// The graph of the program before a change.
#[derive(Clone, Copy)]
pub struct Former<'a, L: Ledger> {
    /// The graph.
    pub graph: &'a Graph<L>,
    /// For each statement that is kept, by its number after the change, the number that it had before.
    pub statements: &'a IndexMap<u32, u32>,
}

/// The program after a change.
#[derive(Clone, Copy)]
pub struct Changed<'a, 's> {
    /// What is known of it.
    pub known: Known<'a, 's>,
    /// Its references as sides of their pairs.
    pub sides: &'a [Side<'a>],
}

/// What takes a graph to that of a changed program, of which this is known and whose pairs these are: a pair that comes
/// from one of the graph with the same view keeps its verdict, and every other one is tested, once. Where the sides of a
/// pair show that its view is the same, it isn't made.
pub fn matched<L: Ledger>(
    alloc: Global,
    graph: &Graph<L>,
    known: &Known,
    listed: &[Pair],
    extents: Vec<u32>,
    keep: &[(u32, u32)],
    steps: &mut Steps<L>,
) -> Result<Parts<L>, NoMemory>
    requires known { IsKnown known.now }
    requires within { All (IsWithin (length known.now.found.now)) listed.now }
    requires listed { map (pair_at (references_of known.now.found.now)) listed.now ≡ map Some (pairs (references (program_tree known.now.program.now))) }
    requires found { references_of known.now.found.now ≡ references (program_tree known.now.program.now) }
    requires extents { extents.items ≡ (frame_of (program_tree known.now.program.now)).extents }
    ensures parts { IfOk result (λ parts. IsOneToOne keep.now → parts ≡ Matching.parts_for graph.now keep.now (held_of (program_tree known.now.program.now))) }
    ensures ticks { OnOk result (IsOneToOne keep.now → steps.new ≡ steps.old + fresh_pairs graph.now keep.now (held_of (program_tree known.now.program.now))) }
    ensures least { steps.old ≤ steps.new }
    ensures most { IsOneToOne keep.now → steps.new ≤ steps.old + fresh_pairs graph.now keep.now (held_of (program_tree known.now.program.now)) }
{
    let statements = former_statements(alloc, keep)?;
    let former = Former {
        graph,
        statements: &statements,
    };
    let sides = sides_of(alloc, known)?;
    let changed = Changed {
        known: *known,
        sides: &sides,
    };
    let frame = frame_by(alloc, known, listed, extents)?;
    let mut parts = Parts::new(alloc, frame);
    match_pairs(alloc, &former, &changed, listed, &mut parts, steps)?;
    Ok(parts)
}

/// Adds these pairs, which are all pairs of the changed program, to its frame, which has no slots yet.
fn match_pairs<L: Ledger>(
    alloc: Global,
    former: &Former<'_, L>,
    changed: &Changed,
    listed: &[Pair],
    parts: &mut Parts<L>,
    steps: &mut Steps<L>,
) -> Result<(), NoMemory>
    requires known { IsKnown changed.now.known }
    requires sides { AreSides (program_tree changed.now.known.program.now) (references_of changed.now.known.found.now) changed.now.sides.now }
    requires within { All (IsWithin (length changed.now.known.found.now)) listed.now }
    requires listed { map (pair_at (references_of changed.now.known.found.now)) listed.now ≡ map Some (pairs (references (program_tree changed.now.known.program.now))) }
    requires frame { parts.old.frame ≡ frame_of (program_tree changed.now.known.program.now) }
    requires slots { parts.old.slots ≡ [] }
    requires kept { parts.old.kept ≡ [] }
    ensures parts { OnOk result ((keep : List (ℕ × ℕ)) → IsOneToOne keep → Matching.IsTable keep former.now.statements.now
        → parts.new ≡ Matching.parts_for former.now.graph.now keep (held_of (program_tree changed.now.known.program.now))) }
    ensures ticks { OnOk result ((keep : List (ℕ × ℕ)) → IsOneToOne keep → Matching.IsTable keep former.now.statements.now
        → steps.new ≡ steps.old + fresh_pairs former.now.graph.now keep (held_of (program_tree changed.now.known.program.now))) }
    ensures least { steps.old ≤ steps.new }
    ensures most { (keep : List (ℕ × ℕ)) → IsOneToOne keep → Matching.IsTable keep former.now.statements.now
        → steps.new ≤ steps.old + fresh_pairs former.now.graph.now keep (held_of (program_tree changed.now.known.program.now)) }
{
    let mut round = Round {
        number: 0,
        assigned: NameSet::new(alloc),
    };
    for pair in listed {
        let number = outermost(occurrence_at(&changed.known, pair.source));
        enter(alloc, &mut round, &changed.known, number)?;
        match_pair(alloc, former, changed, &round, pair, parts, steps)?;
    }
    Ok(())
}

/// Adds the next pair of a frame, whose references are at these places.
fn match_pair<L: Ledger>(
    alloc: Global,
    former: &Former<'_, L>,
    changed: &Changed,
    round: &Round,
    pair: &Pair,
    parts: &mut Parts<L>,
    steps: &mut Steps<L>,
) -> Result<(), NoMemory>
    requires known { IsKnown changed.now.known }
    requires sides { AreSides (program_tree changed.now.known.program.now) (references_of changed.now.known.found.now) changed.now.sides.now }
    requires within { IsWithin (length changed.now.known.found.now) pair.now }
    requires round { IsRound (program_tree changed.now.known.program.now) round.now }
    requires entered { (source : Reference) → slice_get (references_of changed.now.known.found.now) pair.now.source ≡ Some source → round.now.number ≡ outermost source }
    requires next { length parts.old.slots < length parts.old.frame.pairs }
    ensures frame { parts.new.frame ≡ parts.old.frame }
    ensures many { OnOk result (length parts.new.slots ≡ length parts.old.slots + 1) }
    ensures parts { OnOk result ((keep : List (ℕ × ℕ)) (f : Framed) (p : Reference × Reference) → IsOneToOne keep → Matching.IsTable keep former.now.statements.now
        → pair_at (references_of changed.now.known.found.now) pair.now ≡ Some p → slice_get parts.old.frame.pairs (length parts.old.slots) ≡ Some f
        → Matching.IsMatched former.now.graph.now keep (pair_by f (view_of (program_tree changed.now.known.program.now) p.0 p.1)) parts.old parts.new) }
    ensures ticks { OnOk result ((keep : List (ℕ × ℕ)) (f : Framed) (p : Reference × Reference) → IsOneToOne keep → Matching.IsTable keep former.now.statements.now
        → pair_at (references_of changed.now.known.found.now) pair.now ≡ Some p → slice_get parts.old.frame.pairs (length parts.old.slots) ≡ Some f
        → steps.new ≡ steps.old + Matching.tests former.now.graph.now keep (pair_by f (view_of (program_tree changed.now.known.program.now) p.0 p.1))) }
    ensures least { steps.old ≤ steps.new }
    ensures most { (keep : List (ℕ × ℕ)) (f : Framed) (p : Reference × Reference) → IsOneToOne keep → Matching.IsTable keep former.now.statements.now
        → pair_at (references_of changed.now.known.found.now) pair.now ≡ Some p → slice_get parts.old.frame.pairs (length parts.old.slots) ≡ Some f
        → steps.new ≤ steps.old + Matching.tests former.now.graph.now keep (pair_by f (view_of (program_tree changed.now.known.program.now) p.0 p.1)) }
{
    let key = parts.frame.key(parts.slots.len() as u64);
    let expected = place_behind(&parts.kept);
    if let Some(here) = told_origin(former, changed, &key, expected, pair) {
        return keep_verdict(parts, here);
    }
    let view = view_at(alloc, &changed.known, round, pair)?;
    match_view(alloc, former, &key, view, parts, steps)
}

/// Adds the next pair of a frame, which has this key and this view.
fn match_view<L: Ledger>(
    alloc: Global,
    former: &Former<'_, L>,
    key: &PairKey,
    view: PairView,
    parts: &mut Parts<L>,
    steps: &mut Steps<L>,
) -> Result<(), NoMemory>
    ensures frame { parts.new.frame ≡ parts.old.frame }
    ensures many { OnOk result (length parts.new.slots ≡ length parts.old.slots + 1) }
    ensures parts { OnOk result ((keep : List (ℕ × ℕ)) (f : Framed) → IsOneToOne keep → Matching.IsTable keep former.now.statements.now
        → (f.source, f.sink) ≡ key_shown key.now → Matching.IsMatched former.now.graph.now keep (pair_by f view) parts.old parts.new) }
    ensures ticks { (keep : List (ℕ × ℕ)) (f : Framed) → IsOneToOne keep → Matching.IsTable keep former.now.statements.now
        → (f.source, f.sink) ≡ key_shown key.now → steps.new ≡ steps.old + Matching.tests former.now.graph.now keep (pair_by f view) }
    ensures least { steps.old ≤ steps.new }
{
    if let Some(here) = origin(former, key, place_behind(&parts.kept), &view) {
        return keep_verdict(parts, here);
    }
    add_verdict(alloc, parts, view, steps)
}

/// For each statement that is kept, by its number after the change, the number that it had before.
fn former_statements(alloc: Global, keep: &[(u32, u32)]) -> Result<IndexMap<u32, u32>, NoMemory>
    ensures { IfOk result (λ former. (now : ℕ) → get nat_eq former now ≡ Matching.former_in keep.now now) }
{
    let mut former = IndexMap::new(alloc);
    for (before, behind) in keep {
        former.insert(*behind, *before)?;
    }
    Ok(former)
}

/// The place of the pair of a graph from which a pair with this key comes, where the sides of its references show that
/// its view is the same.
fn told_origin<L: Ledger>(
    former: &Former<'_, L>,
    changed: &Changed,
    key: &PairKey,
    expected: u64,
    pair: &Pair,
) -> Option<u64>
    requires known { IsKnown changed.now.known }
    requires sides { AreSides (program_tree changed.now.known.program.now) (references_of changed.now.known.found.now) changed.now.sides.now }
    requires within { IsWithin (length changed.now.known.found.now) pair.now }
    ensures { IfSome result (λ here. (keep : List (ℕ × ℕ)) (f : Framed) (p : Reference × Reference) → IsOneToOne keep → Matching.IsTable keep former.now.statements.now
        → pair_at (references_of changed.now.known.found.now) pair.now ≡ Some p → (f.source, f.sink) ≡ key_shown key.now
        → Some here ≡ Matching.origin former.now.graph.now keep (pair_by f (view_of (program_tree changed.now.known.program.now) p.0 p.1))) }
{
    let Some(here) = former_place_of(former, key, expected) else {
        return None;
    };
    if is_told(changed, pair, former.graph.verdict(here).view()) {
        return Some(here);
    }
    None
}

/// Whether the sides of a pair's references show that this is its view.
fn is_told(changed: &Changed, pair: &Pair, view: &PairView) -> bool
    requires known { IsKnown changed.now.known }
    requires sides { AreSides (program_tree changed.now.known.program.now) (references_of changed.now.known.found.now) changed.now.sides.now }
    requires within { IsWithin (length changed.now.known.found.now) pair.now }
    ensures { IsTrue result → (p : Reference × Reference) → pair_at (references_of changed.now.known.found.now) pair.now ≡ Some p
        → view.now ≡ view_of (program_tree changed.now.known.program.now) p.0 p.1 }
{
    let source = occurrence_at(&changed.known, pair.source);
    let sink = occurrence_at(&changed.known, pair.sink);
    if !have_same_outermost(source, sink) {
        return false;
    }
    if pair.source >= changed.sides.len() {
        return false;
    }
    if pair.sink >= changed.sides.len() {
        return false;
    }
    let first = side_there(changed.sides, pair.source);
    let second = side_there(changed.sides, pair.sink);
    tells_view(first, second, view)
}

/// The place of the pair of a graph from which a pair with this key and this view comes, none where it is fresh.
fn origin<L: Ledger>(
    former: &Former<'_, L>,
    key: &PairKey,
    expected: u64,
    view: &PairView,
) -> Option<u64>
    ensures { (keep : List (ℕ × ℕ)) (f : Framed) → IsOneToOne keep → Matching.IsTable keep former.now.statements.now
        → (f.source, f.sink) ≡ key_shown key.now → result ≡ Matching.origin former.now.graph.now keep (pair_by f view.now) }
{
    let Some(here) = former_place_of(former, key, expected) else {
        return None;
    };
    if former.graph.verdict(here).view().same(view) {
        return Some(here);
    }
    None
}

/// The place of the pair of a graph whose references are those of a pair with this key, none where one of them isn't kept
/// or the graph has no such pair.
fn former_place_of<L: Ledger>(former: &Former<'_, L>, key: &PairKey, expected: u64) -> Option<u64>
    ensures within { IfSome result (λ here. here < length former.now.graph.now.frame.pairs) }
    ensures place { (keep : List (ℕ × ℕ)) (f : Framed) (v : View) → IsOneToOne keep → Matching.IsTable keep former.now.statements.now
        → (f.source, f.sink) ≡ key_shown key.now → Matching.IsPlace former.now.graph.now keep (pair_by f v) result }
{
    let Some(key) = former_key(former.statements, key) else {
        return None;
    };
    former.graph.frame().place_near(&key, expected)
}

/// Where the references of a pair stood before the change, none where one of them isn't kept.
fn former_key(former: &IndexMap<u32, u32>, key: &PairKey) -> Option<PairKey>
    ensures { option_map key_shown result ≡ Matching.former_key (get nat_eq former.now) (key_shown key.now) }
{
    Some(PairKey {
        source: former_place(former, key.source)?,
        sink: former_place(former, key.sink)?,
    })
}

/// Where a reference stood before the change, none where its statement isn't kept.
fn former_place(former: &IndexMap<u32, u32>, place: (u32, u32)) -> Option<(u32, u32)>
    ensures { result ≡ Matching.with_number (get nat_eq former.now place.0) place.1 }
{
    match former.get(&place.0) {
        Some(statement) => Some((*statement, place.1)),
        None => None,
    }
}

/// The place after the pair that kept its verdict last: the next one is expected there. Most pairs keep their order.
fn place_behind(kept: &[Kept]) -> u64 {
    match kept.last() {
        Some(pair) => pair.here.saturating_add(1),
        None => 0,
    }
}

/// Adds a pair that keeps the verdict of this pair.
fn keep_verdict<L: Ledger>(parts: &mut Parts<L>, here: u64) -> Result<(), NoMemory>
    ensures frame { parts.new.frame ≡ parts.old.frame }
    ensures many { OnOk result (length parts.new.slots ≡ length parts.old.slots + 1) }
    ensures kept { OnOk result (Matching.KeepsVerdict here parts.old parts.new) }
{
    let there = parts.slots.len() as u64;
    parts.kept.push(Kept { here, there })?;
    parts.slots.push(Slot::empty())?;
    Ok(())
}

/// Adds a pair with this view, which is tested.
fn add_verdict<L: Ledger>(
    alloc: Global,
    parts: &mut Parts<L>,
    view: PairView,
    steps: &mut Steps<L>,
) -> Result<(), NoMemory>
    ensures frame { parts.new.frame ≡ parts.old.frame }
    ensures many { OnOk result (length parts.new.slots ≡ length parts.old.slots + 1) }
    ensures added { OnOk result (Matching.AddsVerdict view parts.old parts.new) }
    ensures tick { steps.new ≡ steps.old + 1 }
{
    let slot = tested(alloc, view, steps)?;
    parts.slots.push(slot)?;
    Ok(())
}
