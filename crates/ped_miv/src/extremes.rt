//! The least and the greatest value that one loop adds to the difference of two subscripts.

ghost use Rattle.std.specs.Prelude.{◌≡◌, ◌≤◌, ◌^◌, ◌-ℤ◌, ◌*ℤ◌, unsigned_abs, IfSome};
ghost use Rattle.ped_views.specs.Limits.{IsSmallCoefficient, IsSmallConstant};
ghost use Rattle.ped_views.specs.Intervals.{IsWithin};
ghost use Rattle.ped_miv.specs.Values.{AreExtremes, FormValue, InSquare, OnDiagonal, InTriangle, LoopValue};

use ped_views::{Direction, Interval, LoopRange, product};

/// The least and the greatest value of `a * i - b * j` over the values i at the source and j at the sink of
/// one loop that are in the direction, or in any where there is none. None where there are no such values.
/// A loop whose index occurs on neither side gives 0, whatever its range is.
pub(crate) fn loop_extremes(
    range: &LoopRange,
    direction: Option<Direction>,
    a: i64,
    b: i64,
) -> Option<Interval>
    requires source { IsSmallCoefficient a }
    requires sink { IsSmallCoefficient b }
    ensures extremes { AreExtremes (LoopValue range.now direction a b) result }
    ensures small { IfSome result (λ x. IsWithin (2 ^ 94) x) }
{
    if a == 0 && b == 0 {
        return Some(Interval { lo: 0, hi: 0 });
    }
    match direction {
        None => square_extremes(range.lo, range.hi, a, b),
        Some(d) => match d.by_value(range.step) {
            Direction::Before => triangle_extremes(range.lo, range.hi, a, b),
            Direction::Same => diagonal_extremes(range.lo, range.hi, a, b),
            Direction::After => triangle_extremes(range.lo, range.hi, -b, -a),
        },
    }
}

/// The extremes where i and j lie from `lo` to `hi`: at the corners of a square.
fn square_extremes(lo: i64, hi: i64, a: i64, b: i64) -> Option<Interval>
    requires lo { IsSmallConstant lo }
    requires hi { IsSmallConstant hi }
    requires source { IsSmallCoefficient a }
    requires sink { IsSmallCoefficient b }
    ensures extremes { AreExtremes (FormValue (InSquare lo hi) a b) result }
    ensures small { IfSome result (λ x. IsWithin (2 ^ 94) x) }
{
    if hi < lo {
        return None;
    }
    let near = Interval::between(corner(a, lo, b, lo), corner(a, lo, b, hi));
    let far = Interval::between(corner(a, hi, b, lo), corner(a, hi, b, hi));
    Some(near.join(far))
}

/// The extremes where i = j lies from `lo` to `hi`: at the ends of a diagonal.
fn diagonal_extremes(lo: i64, hi: i64, a: i64, b: i64) -> Option<Interval>
    requires lo { IsSmallConstant lo }
    requires hi { IsSmallConstant hi }
    requires source { IsSmallCoefficient a }
    requires sink { IsSmallCoefficient b }
    ensures extremes { AreExtremes (FormValue (OnDiagonal lo hi) a b) result }
    ensures small { IfSome result (λ x. IsWithin (2 ^ 94) x) }
{
    if hi < lo {
        return None;
    }
    Some(Interval::between(corner(a, lo, b, lo), corner(a, hi, b, hi)))
}

/// The extremes where i < j lie from `lo` to `hi`: at the corners of a triangle.
fn triangle_extremes(lo: i64, hi: i64, a: i64, b: i64) -> Option<Interval>
    requires lo { IsSmallConstant lo }
    requires hi { IsSmallConstant hi }
    requires source { IsSmallCoefficient a }
    requires sink { IsSmallCoefficient b }
    ensures extremes { AreExtremes (FormValue (InTriangle lo hi) a b) result }
    ensures small { IfSome result (λ x. IsWithin (2 ^ 94) x) }
{
    if hi <= lo {
        return None;
    }
    let far = corner(a, lo, b, hi);
    let edge = Interval::between(corner(a, lo, b, lo + 1), corner(a, hi - 1, b, hi));
    Some(edge.join(Interval::between(far, far)))
}

/// `a * i - b * j`.
fn corner(a: i64, i: i64, b: i64, j: i64) -> i128
    requires source { IsSmallCoefficient a }
    requires i { IsSmallConstant i }
    requires sink { IsSmallCoefficient b }
    requires j { IsSmallConstant j }
    ensures value { result ≡ a *ℤ i -ℤ b *ℤ j }
    ensures small { unsigned_abs result ≤ 2 ^ 94 }
{
    product(a, i) - product(b, j)
}
