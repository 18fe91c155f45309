//! The least and the greatest difference of the two subscripts at a position, under directions.

ghost use Rattle.std.specs.Prelude.{◌≡◌, ◌<◌, ◌≤◌, ◌^◌, ◌+ℤ◌, ◌-ℤ◌, All, length, IfSome, unsigned_abs};
ghost use Rattle.ped_views.specs.Limits.{IsSmallCoefficient, FitsLoops};
ghost use Rattle.ped_views.specs.Intervals.{IsWithin};
ghost use Rattle.ped_miv.specs.Values.{AreExtremes, CommonValue, InnerValue, DifferenceValue};

use crate::extremes::loop_extremes;
use crate::rows::{common_coefficients, constant_difference, inner_coefficients};
use ped_views::{Direction, Interval, LoopRange, PairView, Position};

/// The least and the greatest value of the source's subscript less the sink's, over the values of the loops that
/// occur, in these directions of the outer common loops and in any after them. None where there are no
/// such values.
pub(crate) fn difference_extremes(
    view: &PairView,
    position: &Position,
    directions: &[Direction],
) -> Option<Interval>
    requires { FitsLoops
        (length view.now.loops)
        (length view.now.source_inner)
        (length view.now.sink_inner)
        position.now }
    ensures { AreExtremes (DifferenceValue view.now position.now directions.now) result }
{
    let common = common_part(view, position, directions)?;
    let source = source_part(view, position)?;
    let sink = sink_part(view, position)?;
    Some(combined(common, source, sink, constant_difference(position)))
}

/// What the common loops add.
fn common_part(view: &PairView, position: &Position, directions: &[Direction]) -> Option<Interval>
    requires source { length position.now.source.common ≡ length view.now.loops }
    requires sink { length position.now.sink.common ≡ length view.now.loops }
    ensures extremes { AreExtremes
        (CommonValue
        view.now.loops
        directions.now
        position.now.source.common
        position.now.sink.common)
        result }
    ensures small { IfSome result (λ x. IsWithin (2 ^ 97) x) }
{
    let source = common_coefficients(&position.source);
    let sink = common_coefficients(&position.sink);
    common_extremes(&view.loops, directions, source, sink)
}

/// What the further loops of the source add to its subscript.
pub(crate) fn source_part(view: &PairView, position: &Position) -> Option<Interval>
    requires { length position.now.source.inner ≡ length view.now.source_inner }
    ensures extremes { AreExtremes (InnerValue view.now.source_inner position.now.source.inner) result }
    ensures small { IfSome result (λ x. IsWithin (2 ^ 97) x) }
{
    inner_extremes(&view.source_inner, inner_coefficients(&position.source))
}

/// What the further loops of the sink add to its subscript.
pub(crate) fn sink_part(view: &PairView, position: &Position) -> Option<Interval>
    requires { length position.now.sink.inner ≡ length view.now.sink_inner }
    ensures extremes { AreExtremes (InnerValue view.now.sink_inner position.now.sink.inner) result }
    ensures small { IfSome result (λ x. IsWithin (2 ^ 97) x) }
{
    inner_extremes(&view.sink_inner, inner_coefficients(&position.sink))
}

/// The extremes of the difference, from those of its parts.
pub(crate) fn combined(
    common: Interval,
    source: Interval,
    sink: Interval,
    constant: i128,
) -> Interval
    requires common { IsWithin (2 ^ 97) common }
    requires source { IsWithin (2 ^ 97) source }
    requires sink { IsWithin (2 ^ 97) sink }
    requires constant { unsigned_abs constant < 2 ^ 64 }
    ensures lo { result.lo ≡ common.lo +ℤ source.lo -ℤ sink.hi +ℤ constant }
    ensures hi { result.hi ≡ common.hi +ℤ source.hi -ℤ sink.lo +ℤ constant }
{
    Interval {
        lo: total(common.lo, source.lo, sink.hi, constant),
        hi: total(common.hi, source.hi, sink.lo, constant),
    }
}

fn total(common: i128, source: i128, sink: i128, constant: i128) -> i128
    requires common { unsigned_abs common ≤ 2 ^ 97 }
    requires source { unsigned_abs source ≤ 2 ^ 97 }
    requires sink { unsigned_abs sink ≤ 2 ^ 97 }
    requires constant { unsigned_abs constant < 2 ^ 64 }
    ensures { result ≡ common +ℤ source -ℤ sink +ℤ constant }
{
    common + source - sink + constant
}

/// The extremes of what the common loops add.
fn common_extremes(
    loops: &[LoopRange],
    directions: &[Direction],
    source: &[i64],
    sink: &[i64],
) -> Option<Interval>
    requires few { length loops.now ≤ 6 }
    requires source { length source.now ≡ length loops.now }
    requires sink { length sink.now ≡ length loops.now }
    requires source_small { All IsSmallCoefficient source.now }
    requires sink_small { All IsSmallCoefficient sink.now }
    ensures extremes { AreExtremes (CommonValue loops.now directions.now source.now sink.now) result }
    ensures small { IfSome result (λ x. IsWithin (2 ^ 97) x) }
{
    let mut sum = Interval { lo: 0, hi: 0 };
    for (k, range) in loops.iter().enumerate() {
        let part = loop_extremes(range, directions.get(k).copied(), source[k], sink[k])?;
        sum = sum.add(part);
    }
    Some(sum)
}

/// The extremes of what the further loops of one side add to its subscript.
fn inner_extremes(loops: &[LoopRange], row: &[i64]) -> Option<Interval>
    requires few { length loops.now ≤ 6 }
    requires row { length row.now ≡ length loops.now }
    requires row_small { All IsSmallCoefficient row.now }
    ensures extremes { AreExtremes (InnerValue loops.now row.now) result }
    ensures small { IfSome result (λ x. IsWithin (2 ^ 97) x) }
{
    let mut sum = Interval { lo: 0, hi: 0 };
    for (k, range) in loops.iter().enumerate() {
        let part = loop_extremes(range, None, row[k], 0)?;
        sum = sum.add(part);
    }
    Some(sum)
}
