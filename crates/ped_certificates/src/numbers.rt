//! Operations on the numbers of rows, each exact.

ghost use Rattle.std.specs.Prelude.{◌≡◌, ◌≤◌, ◌^◌, ◌+ℤ◌, ◌-ℤ◌, ◌*ℤ◌, pos, negsuc, int_div};
ghost use Rattle.std.specs.Int.{int_div_euclid};
ghost use Rattle.ped_certificates.specs.Limits.{IsWithin};
ghost use Rattle.ped_certificates.specs.Certificates as Spec;

use crate::systems::Part;

/// The largest number of a row that is added, without its sign.
const LARGEST: u128 = 1 << 64;

/// A multiple of a number, with another number added.
#[tactic(auto, using(crate::proofs::Adding::fitting))]
pub fn multiple_and(part: &Part, number: i128, added: i128) -> i128
    requires number { IsWithin (2 ^ 64) number }
    requires added { IsWithin (2 ^ 105) added }
    ensures sum { result ≡ part.now.factor *ℤ number +ℤ added }
    ensures factor { IsWithin (2 ^ 31) part.now.factor }
{
    total(product(part.factor, number), added)
}

/// A multiple of a number; a factor is within 2^31 of zero.
#[tactic(auto, using(crate::proofs::Adding::fitting))]
fn product(factor: i32, number: i128) -> i128
    requires { IsWithin (2 ^ 64) number }
    ensures product { result ≡ factor *ℤ number }
    ensures within { IsWithin (2 ^ 95) result }
    ensures factor { IsWithin (2 ^ 31) factor }
{
    i128::from(factor) * number
}

/// The sum of two numbers.
#[tactic(auto, using(crate::proofs::Adding::fitting))]
fn total(first: i128, second: i128) -> i128
    requires first { IsWithin (2 ^ 95) first }
    requires second { IsWithin (2 ^ 105) second }
    ensures { result ≡ first +ℤ second }
{
    first + second
}

/// The number.
pub fn whole(number: i32) -> i128
    ensures { result ≡ number }
{
    i128::from(number)
}

/// -1, less the number.
pub fn beyond(number: i32) -> i128
    ensures { result ≡ negsuc 0 -ℤ number }
{
    -1 - i128::from(number)
}

/// Whether the divisor divides a number.
pub fn divides(divisor: u32, number: i128) -> bool
    requires { 1 ≤ divisor }
    ensures { result ≡ Spec.divides divisor number }
{
    number % i128::from(divisor) == 0
}

/// The quotient of a number, without its fraction.
pub fn quotient(number: i128, divisor: u32) -> i128
    requires { 1 ≤ divisor }
    ensures { result ≡ int_div number (pos divisor) }
{
    number / i128::from(divisor)
}

/// The quotient of a number, rounded down.
pub fn rounded_down(number: i128, divisor: u32) -> i128
    requires { 1 ≤ divisor }
    ensures { result ≡ int_div_euclid number (pos divisor) }
{
    number.div_euclid(i128::from(divisor))
}

/// Whether a number is within 2^64 of zero.
pub fn is_small(number: i128) -> bool
    ensures { result ≡ Spec.is_small number }
{
    number.unsigned_abs() <= LARGEST
}
