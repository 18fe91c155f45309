//! Sums, products, quotients and the intrinsic functions of numbers (ANSI X3.9-1978, sections 6.1 and 15.10).
//! Each faults exactly where its definition says so.

ghost use Rattle.std.specs.Prelude.{◌≡◌};
ghost use Rattle.ped_base.specs.Arithmetic.Arithmetic.{sum_of, difference_of, negation_of, product_of, quotient_of, remainder_of, absolute_value_of, greatest_of, least_of};

use crate::arithmetic::faults::Fault;

/// `a + b`; out of range where 128 bits don't hold it.
pub fn sum(a: i128, b: i128) -> Result<i128, Fault>
    ensures { result ≡ sum_of a b }
{
    a.checked_add(b).ok_or(Fault::OutOfRange)
}

/// `a - b`; out of range where 128 bits don't hold it.
pub fn difference(a: i128, b: i128) -> Result<i128, Fault>
    ensures { result ≡ difference_of a b }
{
    a.checked_sub(b).ok_or(Fault::OutOfRange)
}

/// `-a`; out of range for -2^127 alone.
pub fn negation(a: i128) -> Result<i128, Fault>
    ensures { result ≡ negation_of a }
{
    a.checked_neg().ok_or(Fault::OutOfRange)
}

/// `a * b`; out of range where 128 bits don't hold it.
pub fn product(a: i128, b: i128) -> Result<i128, Fault>
    ensures { result ≡ product_of a b }
{
    a.checked_mul(b).ok_or(Fault::OutOfRange)
}

/// `a / b`, truncated towards zero (section 6.1.5): a division by zero where `b` is 0, and out of range for -2^127
/// by -1 alone.
pub fn quotient(a: i128, b: i128) -> Result<i128, Fault>
    ensures { result ≡ quotient_of a b }
{
    if b == 0 {
        return Err(Fault::DivisionByZero);
    }
    a.checked_div(b).ok_or(Fault::OutOfRange)
}

/// MOD, which is `a - (a / b) * b` operation by operation: a division by zero where `b` is 0, and out of range for
/// -2^127 by -1 alone, where `a / b` is. It has the sign of `a`.
pub fn remainder(a: i128, b: i128) -> Result<i128, Fault>
    ensures { result ≡ remainder_of a b }
{
    difference(a, product(quotient(a, b)?, b)?)
}

/// ABS; out of range for -2^127 alone.
pub fn absolute_value(a: i128) -> Result<i128, Fault>
    ensures { result ≡ absolute_value_of a }
{
    a.checked_abs().ok_or(Fault::OutOfRange)
}

/// MAX of two numbers. It is never a fault, and answers in the form of the other operations.
pub fn greatest(a: i128, b: i128) -> Result<i128, Fault>
    ensures { result ≡ greatest_of a b }
{
    Ok(a.max(b))
}

/// MIN of two numbers. It is never a fault, and answers in the form of the other operations.
pub fn least(a: i128, b: i128) -> Result<i128, Fault>
    ensures { result ≡ least_of a b }
{
    Ok(a.min(b))
}
