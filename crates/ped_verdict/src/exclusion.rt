//! The vectors that a position with subscripts in one index at most excludes. Each is tested by its form, and those
//! that are strong SIV in one loop are tested together.

ghost use Rattle.std.specs.Prelude.{◌≡◌, ◌<◌, ◌≤◌, ◌^◌, ◌↔◌, ◌+◌, pos, neg_ℤ, length, [], Some, slice_get, IfOk, OnOk, IfSome, IsTrue};
ghost use Rattle.ped_views.specs.Forms as plain;
ghost use Rattle.ped_views.specs.Forms.{strong_siv, weak_zero_siv, weak_crossing_siv};
ghost use Rattle.ped_views.specs.Limits.{FitsLoops};
ghost use Rattle.ped_views.specs.Excluded.{NeverMeets, Excludes, group_of};
ghost use Rattle.ped_verdict.specs.CodeForms.{occurrence_shown, HasOneZero};
ghost use Rattle.ped_verdict.specs.Marked.{AreAdded, SingleExcludes};
ghost use Rattle.ped_verdict.specs.Sights.{AreSights};

use crate::forms::{Form, Occurrence, form_of};
use crate::fronts::{mark_directions, mark_front};
use crate::groups::group;
use crate::sights::{Sight, sight_of};
use crate::vectors::Vector;
use ped_base::NoMemory;
use ped_bits::Row;
use ped_siv::{
    StrongRow, group_excludes, weak_crossing_excludes, weak_zero_excludes, ziv_excludes,
};
use ped_views::{Direction, LoopRange, PairView, Position};
use std::alloc::Global;

/// Adds the vectors that the position at this place excludes, or what is found of it where its subscripts are in
/// several indices. One that isn't usable excludes nothing.
pub(crate) fn exclude_by(
    alloc: Global,
    view: &PairView,
    position: usize,
    excluded: &mut Row,
    sights: &mut Vec<Sight>,
) -> Result<(), NoMemory>
    requires place { position < length view.now.positions }
    requires wide { length excluded.old ≡ 3 ^ length view.now.loops }
    ensures marks { IfOk result (λ done. IfSome
        (slice_get view.now.positions position)
        (λ p. AreAdded (length view.now.loops) [] (SingleExcludes view.now p) excluded.old excluded.new)) }
    ensures sights { OnOk
        result
        (AreSights view.now position sights.old.items → AreSights view.now (position + 1) sights.new.items) }
{
    let pair = &view.positions[position];
    if pair.usable {
        return exclude_usable(alloc, view, position, pair, excluded, sights);
    }
    Ok(())
}

/// Adds the vectors that usable subscripts in one index at most exclude, by the test of their form, or what is found of
/// subscripts in several indices.
fn exclude_usable(
    alloc: Global,
    view: &PairView,
    position: usize,
    pair: &Position,
    excluded: &mut Row,
    sights: &mut Vec<Sight>,
) -> Result<(), NoMemory>
    requires inside { position < length view.now.positions }
    requires there { slice_get view.now.positions position ≡ Some pair.now }
    requires fits { FitsLoops
        (length view.now.loops)
        (length view.now.source_inner)
        (length view.now.sink_inner)
        pair.now }
    requires usable { IsTrue pair.now.usable }
    requires wide { length excluded.old ≡ 3 ^ length view.now.loops }
    ensures marks { IfOk result (λ done. AreAdded
        (length view.now.loops)
        []
        (SingleExcludes view.now pair.now)
        excluded.old
        excluded.new) }
    ensures sights { OnOk
        result
        (AreSights view.now position sights.old.items → AreSights view.now (position + 1) sights.new.items) }
{
    match form_of(pair) {
        Form::Ziv => {
            exclude_ziv(view, pair, excluded);
            Ok(())
        }
        Form::Strong(one) => {
            exclude_strong(alloc, view, position, pair, one, excluded)?;
            Ok(())
        }
        Form::WeakZero(one) => {
            exclude_weak_zero(view, pair, one, excluded);
            Ok(())
        }
        Form::WeakCrossing(one) => {
            exclude_weak_crossing(view, pair, one, excluded);
            Ok(())
        }
        Form::Other => {
            let sight = sight_of(alloc, view, position, pair)?;
            sights.push(sight)?;
            Ok(())
        }
    }
}

/// Subscripts without an index exclude every vector, or none.
fn exclude_ziv(view: &PairView, pair: &Position, excluded: &mut Row)
    requires usable { IsTrue pair.now.usable }
    requires form { plain.ziv ≡ plain.form_of pair.now }
    requires wide { length excluded.old ≡ 3 ^ length view.now.loops }
    ensures { AreAdded
        (length view.now.loops)
        []
        (Excludes view.now pair.now)
        excluded.old
        excluded.new }
{
    if ziv(pair) {
        mark_front(view.loops.len(), &Vector::empty(), excluded);
    }
}

/// Whether subscripts without an index exclude every vector.
fn ziv(pair: &Position) -> bool
    ensures { IsTrue result ↔ ¬ (pair.now.source.constant ≡ pair.now.sink.constant) }
{
    ziv_excludes(pair.source.constant, pair.sink.constant)
}

/// Subscripts that are strong SIV in a loop exclude the directions that their group excludes.
fn exclude_strong(
    alloc: Global,
    view: &PairView,
    position: usize,
    pair: &Position,
    one: Occurrence,
    excluded: &mut Row,
) -> Result<(), NoMemory>
    requires inside { position < length view.now.positions }
    requires there { slice_get view.now.positions position ≡ Some pair.now }
    requires usable { IsTrue pair.now.usable }
    requires form { strong_siv (occurrence_shown one) ≡ plain.form_of pair.now }
    requires place { one.place < length view.now.loops }
    requires wide { length excluded.old ≡ 3 ^ length view.now.loops }
    ensures { IfOk result (λ done. AreAdded
        (length view.now.loops)
        []
        (Excludes view.now pair.now)
        excluded.old
        excluded.new) }
{
    let rows = group(alloc, &view.positions, one.place)?;
    exclude_group(view, position, pair, one, &rows, excluded);
    Ok(())
}

/// A position excludes the directions that its group excludes.
fn exclude_group(
    view: &PairView,
    _position: usize,
    pair: &Position,
    one: Occurrence,
    rows: &[StrongRow],
    excluded: &mut Row,
)
    requires inside { _position < length view.now.positions }
    requires there { slice_get view.now.positions _position ≡ Some pair.now }
    requires usable { IsTrue pair.now.usable }
    requires form { strong_siv (occurrence_shown one) ≡ plain.form_of pair.now }
    requires place { one.place < length view.now.loops }
    requires group { rows.now ≡ group_of one.place view.now.positions }
    requires wide { length excluded.old ≡ 3 ^ length view.now.loops }
    ensures { AreAdded
        (length view.now.loops)
        []
        (Excludes view.now pair.now)
        excluded.old
        excluded.new }
{
    let range = &view.loops[one.place];
    let before = group_excludes(rows, range, Direction::Before);
    let same = group_excludes(rows, range, Direction::Same);
    let after = group_excludes(rows, range, Direction::After);
    mark_directions(view.loops.len(), one.place, before, same, after, excluded);
}

/// Subscripts in one common index, on one side alone, exclude directions of its loop.
fn exclude_weak_zero(view: &PairView, pair: &Position, one: Occurrence, excluded: &mut Row)
    requires usable { IsTrue pair.now.usable }
    requires form { weak_zero_siv (occurrence_shown one) ≡ plain.form_of pair.now }
    requires zero { HasOneZero one.at_source one.at_sink }
    requires place { one.place < length view.now.loops }
    requires wide { length excluded.old ≡ 3 ^ length view.now.loops }
    ensures { AreAdded
        (length view.now.loops)
        []
        (Excludes view.now pair.now)
        excluded.old
        excluded.new }
{
    let range = &view.loops[one.place];
    let before = weak_zero(pair, one, range, Direction::Before);
    let same = weak_zero(pair, one, range, Direction::Same);
    let after = weak_zero(pair, one, range, Direction::After);
    mark_directions(view.loops.len(), one.place, before, same, after, excluded);
}

/// Subscripts in one common index, with opposite coefficients, exclude directions of its loop.
fn exclude_weak_crossing(view: &PairView, pair: &Position, one: Occurrence, excluded: &mut Row)
    requires usable { IsTrue pair.now.usable }
    requires form { weak_crossing_siv (occurrence_shown one) ≡ plain.form_of pair.now }
    requires some { ¬ (one.at_source ≡ pos 0) }
    requires opposite { one.at_source ≡ neg_ℤ one.at_sink }
    requires place { one.place < length view.now.loops }
    requires wide { length excluded.old ≡ 3 ^ length view.now.loops }
    ensures { AreAdded
        (length view.now.loops)
        []
        (Excludes view.now pair.now)
        excluded.old
        excluded.new }
{
    let range = &view.loops[one.place];
    let before = weak_crossing(pair, one, range, Direction::Before);
    let same = weak_crossing(pair, one, range, Direction::Same);
    let after = weak_crossing(pair, one, range, Direction::After);
    mark_directions(view.loops.len(), one.place, before, same, after, excluded);
}

/// Whether subscripts in one common index, on one side alone, exclude a direction of its loop.
fn weak_zero(pair: &Position, one: Occurrence, range: &LoopRange, d: Direction) -> bool
    requires { HasOneZero one.at_source one.at_sink }
    ensures { IsTrue result ↔ NeverMeets
        one.at_source
        one.at_sink
        pair.now.source.constant
        pair.now.sink.constant
        range.now
        d }
{
    let c1 = pair.source.constant;
    let c2 = pair.sink.constant;
    weak_zero_excludes(one.at_source, one.at_sink, c1, c2, range, d)
}

/// Whether subscripts in one common index, with opposite coefficients, exclude a direction of its loop.
fn weak_crossing(pair: &Position, one: Occurrence, range: &LoopRange, d: Direction) -> bool
    requires some { ¬ (one.at_source ≡ pos 0) }
    requires form { one.at_source ≡ neg_ℤ one.at_sink }
    ensures { IsTrue result ↔ NeverMeets
        one.at_source
        one.at_sink
        pair.now.source.constant
        pair.now.sink.constant
        range.now
        d }
{
    let c1 = pair.source.constant;
    let c2 = pair.sink.constant;
    weak_crossing_excludes(one.at_source, one.at_sink, c1, c2, range, d)
}
