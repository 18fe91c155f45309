//! The GCD test: whether any whole numbers make two subscripts equal.

ghost use Rattle.std.specs.Prelude.{◌≡◌, ◌<ℤ◌, ◌≤ℤ◌, ◌^◌, ◌↔◌, ℤ, pos, neg_ℤ, length, IsTrue};
ghost use Rattle.std.specs.Bool.{IsFalse};
ghost use Rattle.ped_views.specs.declared.directions.Direction.TheVariants.{Same};
ghost use Rattle.ped_views.specs.Excluded.{HasNoSolution};
ghost use Rattle.ped_miv.specs.Values.{AreMultiples, FormValue, IsShared, CommonForm, InnerForm};

use crate::rows::{common_coefficients, constant_difference, inner_coefficients};
use ped_views::{Direction, Position, difference, divides, gcd};

/// Whether no whole numbers whatever make the two subscripts at a position equal, where the two indices of a loop
/// with `=` are one unknown (Allen and Kennedy, section 3.3, GCD test).
///
/// They have a solution exactly where the greatest common divisor of the coefficients divides the difference
/// of the constants; the two coefficients of a loop with `=` count as one, their difference. The test looks at
/// no range.
pub fn gcd_excludes(position: &Position, directions: &[Direction]) -> bool
    ensures { IsTrue result ↔ HasNoSolution position.now directions.now }
{
    let inner = gcd(source_divisor(position), sink_divisor(position));
    let divisor = gcd(loops_divisor(position, directions), inner);
    !divides(divisor, constant_difference(position))
}

/// The greatest common divisor of the coefficients of the common loops at a position.
fn loops_divisor(position: &Position, directions: &[Direction]) -> i128
    ensures multiples { AreMultiples
        (CommonForm position.now.source.common position.now.sink.common directions.now)
        result }
    ensures not_negative { pos 0 ≤ℤ result }
    ensures paired { length position.now.source.common ≡ length position.now.sink.common }
{
    let source = common_coefficients(&position.source);
    let sink = common_coefficients(&position.sink);
    common_divisor(source, sink, directions)
}

/// The greatest common divisor of the coefficients of the source's further loops.
fn source_divisor(position: &Position) -> i128
    ensures multiples { AreMultiples (InnerForm position.now.source.inner) result }
    ensures not_negative { pos 0 ≤ℤ result }
{
    inner_divisor(inner_coefficients(&position.source))
}

/// The greatest common divisor of the coefficients of the sink's further loops.
fn sink_divisor(position: &Position) -> i128
    ensures multiples { AreMultiples (InnerForm position.now.sink.inner) result }
    ensures not_negative { pos 0 ≤ℤ result }
{
    inner_divisor(inner_coefficients(&position.sink))
}

/// The greatest common divisor of these coefficients of the common loops.
fn common_divisor(source: &[i64], sink: &[i64], directions: &[Direction]) -> i128
    requires { length source.now ≡ length sink.now }
    ensures multiples { AreMultiples (CommonForm source.now sink.now directions.now) result }
    ensures not_negative { pos 0 ≤ℤ result }
{
    let mut divisor = 0;
    for (k, a) in source.iter().enumerate() {
        divisor = gcd(
            divisor,
            loop_divisor(*a, sink[k], directions.get(k).copied()),
        );
    }
    divisor
}

/// The greatest common divisor of the coefficients of one common loop.
fn loop_divisor(a: i64, b: i64, direction: Option<Direction>) -> i128
    ensures multiples { AreMultiples (FormValue (IsShared direction) a b) result }
    ensures small { neg_ℤ (pos (2 ^ 127)) <ℤ result }
{
    if has_one_unknown(direction) {
        difference(a, b)
    } else {
        gcd(i128::from(a), i128::from(b))
    }
}

/// Whether the two indices of a common loop are one unknown: under `=`.
fn has_one_unknown(direction: Option<Direction>) -> bool
    ensures one { IsTrue result → direction ≡ Some Same }
    ensures two { IsFalse result → (i j : ℤ) → IsShared direction i j }
{
    matches!(direction, Some(Direction::Same))
}

/// The greatest common divisor of the coefficients of the further loops of one side.
fn inner_divisor(row: &[i64]) -> i128
    ensures multiples { AreMultiples (InnerForm row.now) result }
    ensures not_negative { pos 0 ≤ℤ result }
{
    let mut divisor = 0;
    for a in row {
        divisor = gcd(divisor, i128::from(*a));
    }
    divisor
}
