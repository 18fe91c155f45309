//! The weak-zero SIV test: subscripts in one common index that occurs on one side only.

ghost use Rattle.std.specs.Prelude.{◌≡◌, ◌<◌, ◌^◌, ◌↔◌, ◌⊎◌, pos, unsigned_abs, IsTrue};
ghost use Rattle.ped_views.specs.Excluded.{NeverMeets};
ghost use Rattle.ped_siv.specs.Fits.{HasPartner, HasNoPoint};

use ped_views::{Direction, LoopRange, difference, exact_quotient};

/// Whether the subscripts `a * i + c1` at the source and `b * j + c2` at the sink, where one of `a` and `b` is
/// 0 and the other isn't, exclude a direction of the loop (Allen and Kennedy, section 3.3, weak-zero SIV).
///
/// One side's subscript is a constant, so the other side's index is one value. The direction is excluded
/// exactly where this isn't whole, lies outside the range, or has no value of the range before or after it.
pub fn weak_zero_excludes(a: i64, b: i64, c1: i64, c2: i64, range: &LoopRange, d: Direction) -> bool
    requires form { ((a ≡ pos 0) × ¬ (b ≡ pos 0)) ⊎ (¬ (a ≡ pos 0) × (b ≡ pos 0)) }
    ensures { IsTrue result ↔ NeverMeets a b c1 c2 range.now d }
{
    let d = d.by_value(range.step);
    if b == 0 {
        has_no_point(a, difference(c2, c1), range, d)
    } else {
        has_no_point(b, difference(c1, c2), range, d.turned())
    }
}

/// Whether no value i of the range with `a * i = n` is so ordered with a value of the range.
fn has_no_point(a: i64, n: i128, range: &LoopRange, d: Direction) -> bool
    requires coefficient { ¬ (a ≡ pos 0) }
    requires small { unsigned_abs n < 2 ^ 64 }
    ensures { IsTrue result ↔ HasNoPoint a n range.now d }
{
    match exact_quotient(n, i128::from(a)) {
        None => true,
        Some(i) => !has_partner(i, i128::from(range.lo), i128::from(range.hi), d),
    }
}

/// Whether `i` lies from `lo` to `hi` and is so ordered with a number there.
fn has_partner(i: i128, lo: i128, hi: i128, d: Direction) -> bool
    ensures { IsTrue result ↔ HasPartner d i lo hi }
{
    match d {
        Direction::Before => lo <= i && i < hi,
        Direction::Same => lo <= i && i <= hi,
        Direction::After => lo < i && i <= hi,
    }
}
