//! Views made from what is known of both references of a pair. So a subscript is examined once per reference, not once
//! per pair.

ghost use Rattle.std.specs.Prelude.{◌≡◌, ◌-◌, ◌≤◌, ◌<◌, ◌⊎◌, ◌++◌, ◌∷◌, [], ℕ, Some, All, take, drop, length, slice_get, IfOk, IfSome, OnOk, IsTrue};
ghost use Rattle.std.specs.List.{list_all};
ghost use Rattle.ped_views.specs.Views.{SubscriptPair};
ghost use Rattle.ped_views.specs.Limits.{FitsLoops};
ghost use Rattle.ped_affine.specs.PairViews.{Site, view_at};
ghost use Rattle.ped_affine.specs.Ranges.{Setting as PlainSetting};
ghost use Rattle.ped_graph.specs.Sides.{is_usable, IsOwnRow, IsOwnPosition, AreOwnPositions, IsPlain, IsSide};

use crate::sides::{Side, common_depth};
use arrayvec::ArrayVec;
use ped_base::NoMemory;
use ped_views::{AffRow, LoopRange, PairView, Position, coefficients};
use std::alloc::Global;

/// The view of the pair of these sides, none where they don't determine it.
pub fn told_view(alloc: Global, source: &Side, sink: &Side) -> Result<Option<PairView>, NoMemory>
    ensures { IfOk result (λ told. IfSome told (λ view. (s : PlainSetting) (a b : Site) → IsSide s a source.now → IsSide s b sink.now → view ≡ view_at s a b)) }
{
    let common = common_depth(source.nest, sink.nest);
    if !is_plain(source, common) {
        return Ok(None);
    }
    if !is_plain(sink, common) {
        return Ok(None);
    }
    let view = joined(alloc, common, &source.own, &sink.own)?;
    Ok(Some(view))
}

/// Whether no subscript has other variables, all are affine forms, and there are this many loops.
fn is_plain(side: &Side, common: usize) -> bool
    ensures { IsTrue result → IsPlain common side.now }
{
    side.alone && side.usable && common <= side.own.loops.len()
}

/// The ranges and the positions of two references, of which this many loops are common, by the view of each of them
/// paired with itself.
fn joined(
    alloc: Global,
    common: usize,
    source: &PairView,
    sink: &PairView,
) -> Result<PairView, NoMemory>
    requires source { common ≤ length source.now.loops }
    requires sink { common ≤ length sink.now.loops }
    ensures loops { IfOk result (λ v. v.loops ≡ take common source.now.loops) }
    ensures source_inner { IfOk result (λ v. v.source_inner ≡ drop common source.now.loops) }
    ensures sink_inner { IfOk result (λ v. v.sink_inner ≡ drop common sink.now.loops) }
    ensures positions { IfOk result (λ v. IsTrue (list_all is_usable source.now.positions) → IsTrue (list_all is_usable sink.now.positions)
        → AreOwnPositions common source.now.positions sink.now.positions v.positions) }
{
    let positions = positions(alloc, common, source, sink)?;
    let loops = first_ranges(alloc, &source.loops, common)?;
    let source_inner = further_ranges(alloc, &source.loops, common)?;
    let sink_inner = further_ranges(alloc, &sink.loops, common)?;
    Ok(PairView {
        loops,
        source_inner,
        sink_inner,
        positions,
    })
}

/// So many ranges.
fn first_ranges(
    alloc: Global,
    ranges: &[LoopRange],
    count: usize,
) -> Result<Vec<LoopRange>, NoMemory>
    requires { count ≤ length ranges.now }
    ensures { IfOk result (λ found. found.items ≡ take count ranges.now) }
{
    Ok(ranges[..count].to_vec(alloc)?)
}

/// The ranges after this many.
fn further_ranges(
    alloc: Global,
    ranges: &[LoopRange],
    count: usize,
) -> Result<Vec<LoopRange>, NoMemory>
    requires { count ≤ length ranges.now }
    ensures { IfOk result (λ found. found.items ≡ drop count ranges.now) }
{
    Ok(ranges[count..].to_vec(alloc)?)
}

/// Their positions, as many as both have.
fn positions(
    alloc: Global,
    common: usize,
    source: &PairView,
    sink: &PairView,
) -> Result<Vec<Position>, NoMemory>
    requires source { common ≤ length source.now.loops }
    requires sink { common ≤ length sink.now.loops }
    ensures fit { IfOk result (λ found. All (FitsLoops common (length source.now.loops - common) (length sink.now.loops - common)) found.items) }
    ensures told { IfOk result (λ found. IsTrue (list_all is_usable source.now.positions) → IsTrue (list_all is_usable sink.now.positions)
        → AreOwnPositions common source.now.positions sink.now.positions found.items) }
{
    let count = shorter(position_count(source), position_count(sink));
    let mut found = Vec::with_capacity(alloc, count)?;
    for i in 0..count {
        push_position(&mut found, common, source, sink, i)?;
    }
    Ok(found)
}

/// Adds the position at a place, of two subscripts that are affine forms. Most are over two loops, all of them common.
fn push_position(
    found: &mut Vec<Position>,
    common: usize,
    source: &PairView,
    sink: &PairView,
    place: usize,
) -> Result<(), NoMemory>
    requires source { common ≤ length source.now.loops }
    requires sink { common ≤ length sink.now.loops }
    requires in_source { place < length source.now.positions }
    requires in_sink { place < length sink.now.positions }
    ensures { OnOk result ((p : SubscriptPair) × (found.new.items ≡ found.old.items ++ p ∷ [])
        × FitsLoops common (length source.now.loops - common) (length sink.now.loops - common) p
        × ((a b : SubscriptPair) → slice_get source.now.positions place ≡ Some a → slice_get sink.now.positions place ≡ Some b
        → IsTrue a.usable → IsTrue b.usable → IsOwnPosition common a b p)) }
{
    if common == 2 && source.loops.len() == 2 && sink.loops.len() == 2 {
        found.push(position_over_two(source, sink, place))?;
        return Ok(());
    }
    found.push(position(common, source, sink, place))?;
    Ok(())
}

/// How many positions a view has.
fn position_count(view: &PairView) -> usize
    ensures { result ≡ length view.now.positions }
{
    view.positions.len()
}

/// The lesser of two numbers.
fn shorter(first: usize, second: usize) -> usize
    ensures first { result ≤ first }
    ensures second { result ≤ second }
    ensures one { (n : ℕ) → result ≤ n → (first ≤ n) ⊎ (second ≤ n) }
{
    if first < second {
        return first;
    }
    second
}

/// The position at a place, of two subscripts that are affine forms.
fn position(common: usize, source: &PairView, sink: &PairView, place: usize) -> Position
    requires source { common ≤ length source.now.loops }
    requires sink { common ≤ length sink.now.loops }
    requires in_source { place < length source.now.positions }
    requires in_sink { place < length sink.now.positions }
    ensures fits { FitsLoops common (length source.now.loops - common) (length sink.now.loops - common) result }
    ensures told { (a b : SubscriptPair) → slice_get source.now.positions place ≡ Some a → slice_get sink.now.positions place ≡ Some b
        → IsTrue a.usable → IsTrue b.usable → IsOwnPosition common a b result }
{
    Position {
        usable: true,
        source: divided(common, own_row(source, place)),
        sink: divided(common, own_row(sink, place)),
    }
}

/// The position at a place, of two subscripts that are affine forms over two loops, both of them common.
#[inline]
fn position_over_two(source: &PairView, sink: &PairView, place: usize) -> Position
    requires source { length source.now.loops ≡ 2 }
    requires sink { length sink.now.loops ≡ 2 }
    requires in_source { place < length source.now.positions }
    requires in_sink { place < length sink.now.positions }
    ensures fits { FitsLoops 2 0 0 result }
    ensures told { (a b : SubscriptPair) → slice_get source.now.positions place ≡ Some a → slice_get sink.now.positions place ≡ Some b
        → IsTrue a.usable → IsTrue b.usable → IsOwnPosition 2 a b result }
{
    Position {
        usable: true,
        source: row_over_two(own_row(source, place)),
        sink: row_over_two(own_row(sink, place)),
    }
}

/// The subscript at a place of a reference that is paired with itself.
fn own_row(view: &PairView, place: usize) -> &AffRow
    requires { place < length view.now.positions }
    ensures long { length result.now.common ≡ length view.now.loops }
    ensures row { (a : SubscriptPair) → slice_get view.now.positions place ≡ Some a → result.now ≡ a.source }
{
    &view.positions[place].source
}

/// A row of which all loops are common, divided after this many of them.
fn divided(common: usize, row: &AffRow) -> AffRow
    requires { common ≤ length row.now.common }
    ensures { IsOwnRow common row.now result }
{
    AffRow {
        common: coefficients(&row.common[..common]),
        inner: coefficients(&row.common[common..]),
        constant: row.constant,
    }
}

/// A row over two loops, both of them common.
#[inline]
fn row_over_two(row: &AffRow) -> AffRow
    requires { length row.now.common ≡ 2 }
    ensures { IsOwnRow 2 row.now result }
{
    let mut common = ArrayVec::new();
    common.push(row.common[0]);
    common.push(row.common[1]);
    AffRow {
        common,
        inner: ArrayVec::new(),
        constant: row.constant,
    }
}
