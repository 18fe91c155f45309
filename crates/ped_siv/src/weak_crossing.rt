//! The weak-crossing SIV test: subscripts in one common index, with opposite coefficients.

ghost use Rattle.std.specs.Prelude.{◌≡◌, ◌<◌, ◌^◌, ◌↔◌, ◌+ℤ◌, pos, neg_ℤ, unsigned_abs, IsTrue};
ghost use Rattle.ped_views.specs.Excluded.{NeverMeets};
ghost use Rattle.ped_siv.specs.Fits.{FitsSum};

use ped_views::{Direction, LoopRange, difference, divides, exact_quotient};

/// Whether the subscripts `a * i + c1` at the source and `b * j + c2` at the sink, where a = -b, exclude a
/// direction of the loop (Allen and Kennedy, section 3.3, weak-crossing SIV). `a` isn't 0.
///
/// The subscripts are equal exactly where `i + j = (c2 - c1) / a`, one sum for all iterations. So `<` and `>`
/// are excluded exactly where this isn't whole or isn't the sum of two numbers of the range, and `=` where it
/// isn't twice a number of the range.
pub fn weak_crossing_excludes(
    a: i64,
    b: i64,
    c1: i64,
    c2: i64,
    range: &LoopRange,
    d: Direction,
) -> bool
    requires coefficient { ¬ (a ≡ pos 0) }
    requires form { a ≡ neg_ℤ b }
    ensures { IsTrue result ↔ NeverMeets a b c1 c2 range.now d }
{
    match exact_quotient(difference(c2, c1), i128::from(a)) {
        None => true,
        Some(sum) => !fits_sum(
            sum,
            twice(range.lo),
            twice(range.hi),
            d.by_value(range.step),
        ),
    }
}

fn twice(x: i64) -> i128
    ensures { result ≡ x +ℤ x }
{
    i128::from(x) + i128::from(x)
}

/// Whether two numbers so ordered have this sum, and lie in a range whose ends have these doubles.
fn fits_sum(sum: i128, least: i128, greatest: i128, d: Direction) -> bool
    requires { unsigned_abs sum < 2 ^ 64 }
    ensures { IsTrue result ↔ FitsSum d sum least greatest }
{
    match d {
        Direction::Same => least <= sum && sum <= greatest && divides(2, sum),
        Direction::Before | Direction::After => least < sum && sum < greatest,
    }
}
