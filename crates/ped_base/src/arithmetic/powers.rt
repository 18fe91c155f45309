//! Powers (ANSI X3.9-1978, section 6.1).

ghost use Rattle.std.specs.Prelude.{◌≡◌, ◌<◌, unsigned_abs};
ghost use Rattle.std.specs.Int.{int_pow};
ghost use Rattle.ped_base.specs.Arithmetic.Arithmetic.{in_range, power_of};

use crate::arithmetic::faults::Fault;
use crate::arithmetic::operations::quotient;

/// The greatest exponent with which a base other than -1, 0 and 1 may have a power of 128 bits.
const GREATEST_EXPONENT: u128 = 127;

/// `base ** exponent`, where `0**0` is 1. With a negative exponent it is 1 divided by the power with the opposite
/// exponent: a division by zero where `base` is 0. It is out of range exactly where 128 bits don't hold the power
/// with the exponent's size. It takes at most some 150 multiplications, whatever the exponent.
pub fn power(base: i128, exponent: i128) -> Result<i128, Fault>
    ensures { result ≡ power_of base exponent }
{
    let size = natural_power(base, exponent.unsigned_abs())?;
    if exponent < 0 {
        quotient(1, size)
    } else {
        Ok(size)
    }
}

/// The power with an exponent that isn't negative.
#[tactic(auto, using(crate::proofs::ArithmeticLaws::Raising::great_power))]
fn natural_power(base: i128, exponent: u128) -> Result<i128, Fault>
    ensures { result ≡ in_range (int_pow base exponent) }
{
    if base.unsigned_abs() < 2 {
        return Ok(power_of_sign(base, exponent));
    }
    if exponent > GREATEST_EXPONENT {
        return Err(Fault::OutOfRange);
    }
    base.checked_pow(exponent as u32).ok_or(Fault::OutOfRange)
}

/// The power of -1, 0 or 1.
#[tactic(auto, using(crate::proofs::ArithmeticLaws::Raising::even_power, crate::proofs::ArithmeticLaws::Raising::odd_power))]
fn power_of_sign(base: i128, exponent: u128) -> i128
    requires { unsigned_abs base < 2 }
    ensures { result ≡ int_pow base exponent }
{
    if exponent == 0 {
        1
    } else if exponent % 2 == 0 {
        base.abs()
    } else {
        base
    }
}
