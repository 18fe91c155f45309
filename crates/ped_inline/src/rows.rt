//! The rows of folded dependences, each once, in their order.

ghost use Rattle.std.specs.Prelude.{◌≡◌, ◌++◌, [], ◌∷◌, List, map, Some, ◌&&◌, IfOk, OnOk};
ghost use Rattle.std.specs.Ordering.{is_eq};
ghost use Rattle.std.specs.Cmp.{eq_by_cmp_equiv, partial_order_from_total, partial_equiv_from_equiv};
ghost use Rattle.std.specs.Cmp.Rules.{comparing};
ghost use Rattle.std.proofs.Common.{rules};
ghost use Rattle.ped_refs.specs.Occurrences.{name_text};
ghost use Rattle.ped_edges.specs.CodeEdges.{edge_of, kind_of};
ghost use Rattle.ped_edges.specs.Edges as plain;
ghost use Rattle.ped_inline.specs.Folding as Spec;
ghost use Rattle.ped_inline.specs.Folding.{AreRows};
ghost use Rattle.ped_inline.specs.CodeFolding.{block_seen, place_seen, places_seen, row_seen};
ghost use Rattle.ped_inline.specs.RowOrders.{rows_total};

use crate::block_places::{CallBlock, block_at};
use ped_base::NoMemory;
use ped_edges::{Edge, Kind};
use ped_refs::RefName;
use std::alloc::Global;
use std::cmp::Ordering;
use std::collections::BTreeSet;

/// What is shown of a folded dependence.
#[derive(Clone, Copy)]
pub(crate) struct FoldedRow {
    /// The number of the source's block, or of the source's statement, where that is in none.
    pub(crate) source: u32,
    /// The same of the sink.
    pub(crate) sink: u32,
    /// What both references read or write.
    pub(crate) name: RefName,
    /// Which of them write.
    pub(crate) kind: Kind,
    /// The level of the loop that carries the dependence; none where it is independent of loops.
    pub(crate) level: Option<u8>,
}

impl PartialEq for FoldedRow {
    ghost eq = { λ a b. is_eq (Spec.row_cmp (row_seen a) (row_seen b)) };

    ghost laws = { partial_equiv_from_equiv (eq_by_cmp_equiv rows_total) };

    fn eq(&self, other: &FoldedRow) -> bool {
        compare(self, other).is_eq()
    }
}

impl Eq for FoldedRow {
    ghost laws = { eq_by_cmp_equiv rows_total };
}

impl PartialOrd for FoldedRow {
    ghost partial_cmp = { λ a b. Some (Spec.row_cmp (row_seen a) (row_seen b)) };

    ghost laws = { partial_order_from_total rows_total };

    fn partial_cmp(&self, other: &FoldedRow) -> Option<Ordering> {
        Some(compare(self, other))
    }
}

impl Ord for FoldedRow {
    ghost cmp = { λ a b. Spec.row_cmp (row_seen a) (row_seen b) };

    ghost total = { rows_total };

    ghost matches_partial_cmp = { Prim.search (comparing, rules) };

    ghost matches_eq = { Prim.search (comparing, rules) };

    fn cmp(&self, other: &FoldedRow) -> Ordering {
        compare(self, other)
    }
}

/// Which of two rows comes first: they go by source, sink, name, kind and level.
fn compare(a: &FoldedRow, b: &FoldedRow) -> Ordering
    ensures { result ≡ Spec.row_cmp (row_seen a.now) (row_seen b.now) }
{
    let names = bytes_of(&a.name).cmp(bytes_of(&b.name));
    let kinds = kind_rank(a.kind).cmp(&kind_rank(b.kind));
    let levels = compare_levels(a.level, b.level);
    let further = names.then(kinds.then(levels));
    a.source
        .cmp(&b.source)
        .then(a.sink.cmp(&b.sink).then(further))
}

/// The text of what a reference reads or writes.
pub(crate) fn bytes_of(name: &RefName) -> &[u8]
    ensures { result.now ≡ name_text name.now }
{
    match name {
        RefName::Named(name) => name.as_bytes(),
        RefName::In => b"(IN)",
        RefName::Out => b"(OUT)",
    }
}

/// The place of a kind: flow, anti, output.
fn kind_rank(kind: Kind) -> u8
    ensures { result ≡ Spec.kind_rank (kind_of kind) }
{
    match kind {
        Kind::Flow => 0,
        Kind::Anti => 1,
        Kind::Output => 2,
    }
}

/// Which of two levels comes first: the outer loop, and what is independent of loops last.
fn compare_levels(a: Option<u8>, b: Option<u8>) -> Ordering
    ensures { result ≡ Spec.level_cmp a b }
{
    match a {
        Some(outer) => match b {
            Some(inner) => return outer.cmp(&inner),
            None => return Ordering::Less,
        },
        None => match b {
            Some(_) => return Ordering::Greater,
            None => return Ordering::Equal,
        },
    }
}

/// The rows of the folded ones among these dependences, where these are the blocks of the program's statements.
pub(crate) fn folded_rows(
    alloc: Global,
    places: &[Option<CallBlock>],
    edges: &[Edge],
) -> Result<BTreeSet<FoldedRow>, NoMemory>
    ensures { IfOk result (λ rows. AreRows (places_seen places.now) (map edge_of edges.now) (map row_seen rows.keys)) }
{
    let mut rows = BTreeSet::new(alloc);
    for edge in edges {
        add_folded(&mut rows, places, edge)?;
    }
    Ok(rows)
}

/// Adds the row of a dependence, where that is folded.
fn add_folded(
    rows: &mut BTreeSet<FoldedRow>,
    places: &[Option<CallBlock>],
    edge: &Edge,
) -> Result<(), NoMemory>
    ensures { OnOk result ((done : List plain.Edge) → AreRows (places_seen places.now) done (map row_seen rows.old.keys)
        → AreRows (places_seen places.now) (done ++ edge_of edge.now ∷ []) (map row_seen rows.new.keys)) }
{
    let source = block_at(places, edge.source.0);
    let sink = block_at(places, edge.sink.0);
    if is_folded(source, sink, edge.level) {
        rows.insert(FoldedRow {
            source: number_by(edge.source.0, source),
            sink: number_by(edge.sink.0, sink),
            name: edge.name,
            kind: edge.kind,
            level: edge.level,
        })?;
    }
    Ok(())
}

/// Whether a dependence of this level with these blocks at its source and at its sink is shown.
fn is_folded(source: Option<CallBlock>, sink: Option<CallBlock>, level: Option<u8>) -> bool
    ensures { result ≡ Spec.is_folded_by (place_seen source) (place_seen sink) level }
{
    match source {
        Some(from) => match sink {
            Some(to) => return !(from.number == to.number && stays_inside(from, level)),
            None => return true,
        },
        None => return sink.is_some(),
    }
}

/// Whether no loop carries the dependence, or one that is in the block.
fn stays_inside(block: CallBlock, level: Option<u8>) -> bool
    ensures { result ≡ Spec.stays_inside (block_seen block) level }
{
    match level {
        Some(level) => block.loops < u32::from(level),
        None => true,
    }
}

/// The number of a block, or of the statement that is in none.
fn number_by(number: u32, place: Option<CallBlock>) -> u32
    ensures { result ≡ Spec.number_by number (place_seen place) }
{
    match place {
        Some(block) => block.number,
        None => number,
    }
}
