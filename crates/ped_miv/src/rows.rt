//! The numbers of a position that the tests use.

ghost use Rattle.std.specs.Prelude.{◌≡◌, ◌<◌, ◌^◌, ◌-ℤ◌, All, unsigned_abs};
ghost use Rattle.ped_views.specs.Limits.{IsSmallCoefficient};

use ped_views::{AffRow, Position, difference};

/// The coefficients of the common loops.
pub(crate) fn common_coefficients(row: &AffRow) -> &[i64]
    ensures value { result.now ≡ row.now.common }
    ensures small { All IsSmallCoefficient result.now }
{
    &row.common
}

/// The coefficients of the further loops.
pub(crate) fn inner_coefficients(row: &AffRow) -> &[i64]
    ensures value { result.now ≡ row.now.inner }
    ensures small { All IsSmallCoefficient result.now }
{
    &row.inner
}

/// The source's constant less the sink's.
pub(crate) fn constant_difference(position: &Position) -> i128
    ensures value { result ≡ position.now.source.constant -ℤ position.now.sink.constant }
    ensures small { unsigned_abs result < 2 ^ 64 }
{
    difference(position.source.constant, position.sink.constant)
}
