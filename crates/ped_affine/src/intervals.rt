//! Intervals of bounds and of their parts, all within 2^62 of zero (this project).

ghost use Rattle.std.specs.Prelude.{◌≡◌, ◌≤◌, ◌≤ℤ◌, ◌^◌, IfSome};
ghost use Rattle.std.specs.Option.{ForSome};
ghost use Rattle.ped_views.specs.Intervals.{IsWithin};
ghost use Rattle.ped_affine.specs.IntervalArithmetic.{point, interval_sum, interval_difference, interval_negation, interval_product, interval_max, interval_min};
ghost use Rattle.ped_affine.specs.Ranges as Spec;

use ped_views::Interval;

/// 2^62, the farthest from zero that a bound or a part of it may be.
const FARTHEST: u128 = 0x4000_0000_0000_0000;

/// Whether a number is within 2^62 of zero.
pub(crate) fn is_near(n: i128) -> bool
    ensures { result ≡ Spec.is_near n }
{
    n.unsigned_abs() <= FARTHEST
}

/// The interval, where its ends are within 2^62 of zero.
pub(crate) fn kept(r: Interval) -> Option<Interval>
    requires { r.lo ≤ℤ r.hi }
    ensures value { result ≡ Spec.kept_near r }
    ensures near { IfSome result (IsWithin (2 ^ 62)) }
{
    if is_near(r.lo) && is_near(r.hi) {
        Some(r)
    } else {
        None
    }
}

/// The interval of one number, where it is within 2^62 of zero.
pub(crate) fn kept_point(n: i128) -> Option<Interval>
    ensures value { result ≡ Spec.kept_near (point n) }
    ensures near { IfSome result (IsWithin (2 ^ 62)) }
{
    kept(Interval { lo: n, hi: n })
}

/// The numbers with the opposite sign.
pub(crate) fn negations(a: Option<Interval>) -> Option<Interval>
    requires { ForSome a (IsWithin (2 ^ 62)) }
    ensures value { result ≡ Spec.of_one interval_negation a }
    ensures near { IfSome result (IsWithin (2 ^ 62)) }
{
    match a {
        Some(a) => kept(a.neg()),
        None => None,
    }
}

/// The sums of a number of each.
pub(crate) fn sums(a: Option<Interval>, b: Option<Interval>) -> Option<Interval>
    requires first { ForSome a (IsWithin (2 ^ 62)) }
    requires second { ForSome b (IsWithin (2 ^ 62)) }
    ensures value { result ≡ Spec.of_two interval_sum a b }
    ensures near { IfSome result (IsWithin (2 ^ 62)) }
{
    match (a, b) {
        (Some(a), Some(b)) => kept(a.add(b)),
        _ => None,
    }
}

/// The differences of a number of each.
pub(crate) fn differences(a: Option<Interval>, b: Option<Interval>) -> Option<Interval>
    requires first { ForSome a (IsWithin (2 ^ 62)) }
    requires second { ForSome b (IsWithin (2 ^ 62)) }
    ensures value { result ≡ Spec.of_two interval_difference a b }
    ensures near { IfSome result (IsWithin (2 ^ 62)) }
{
    match (a, b) {
        (Some(a), Some(b)) => kept(a.sub(b)),
        _ => None,
    }
}

/// The least interval with each product of a number of each.
pub(crate) fn products(a: Option<Interval>, b: Option<Interval>) -> Option<Interval>
    requires first { ForSome a (IsWithin (2 ^ 62)) }
    requires second { ForSome b (IsWithin (2 ^ 62)) }
    ensures value { result ≡ Spec.of_two interval_product a b }
    ensures near { IfSome result (IsWithin (2 ^ 62)) }
{
    match (a, b) {
        (Some(a), Some(b)) => kept(a.mul(b)),
        _ => None,
    }
}

/// The greater of a number of each.
pub(crate) fn greater(a: Interval, b: Interval) -> Interval
    requires first { IsWithin (2 ^ 62) a }
    requires second { IsWithin (2 ^ 62) b }
    ensures value { result ≡ interval_max a b }
    ensures near { IsWithin (2 ^ 62) result }
{
    a.max(b)
}

/// The lesser of a number of each.
pub(crate) fn lesser(a: Interval, b: Interval) -> Interval
    requires first { IsWithin (2 ^ 62) a }
    requires second { IsWithin (2 ^ 62) b }
    ensures value { result ≡ interval_min a b }
    ensures near { IsWithin (2 ^ 62) result }
{
    a.min(b)
}
