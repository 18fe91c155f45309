//! Quotients of whole numbers.

ghost use Rattle.std.specs.Prelude.{◌≡◌, ◌<◌, ◌≤◌, ◌^◌, ◌<ℤ◌, ◌*ℤ◌, ◌↔◌, pos, neg_ℤ, unsigned_abs, int_div, int_rem, MatchOption, IfSome, IsTrue};
ghost use Rattle.ped_views.specs.Whole.{Divides, whole_quotient};

/// The whole number k with d * k = n: none exactly where `d` doesn't divide `n`. The divisor isn't 0,
/// and the dividend isn't -2^127, whose quotient by -1 is out of range.
pub fn exact_quotient(n: i128, d: i128) -> Option<i128>
    requires dividend { neg_ℤ (pos (2 ^ 127)) <ℤ n }
    requires divisor { ¬ (d ≡ pos 0) }
    ensures divides { MatchOption result (¬ (Divides d n)) (λ k. d *ℤ k ≡ n) }
    ensures whole { result ≡ whole_quotient n d }
    ensures small { IfSome result (λ k. unsigned_abs k ≤ unsigned_abs n) }
{
    if remainder(n, d) == 0 {
        Some(quotient(n, d))
    } else {
        None
    }
}

/// Whether `d` divides `n`: zero divides zero alone. Where the divisor isn't 0, the dividend isn't -2^127.
pub fn divides(d: i128, n: i128) -> bool
    requires { neg_ℤ (pos (2 ^ 127)) <ℤ n }
    ensures { IsTrue result ↔ Divides d n }
{
    if d == 0 { n == 0 } else { remainder(n, d) == 0 }
}

/// `n / d`, rounded towards zero. Where both are short, a division of 64 bits does, which is a tenth of the work.
pub(crate) fn quotient(n: i128, d: i128) -> i128
    requires dividend { neg_ℤ (pos (2 ^ 127)) <ℤ n }
    requires divisor { ¬ (d ≡ pos 0) }
    ensures value { result ≡ int_div n d }
    ensures small { unsigned_abs result ≤ unsigned_abs n }
{
    if is_short(n) && is_short(d) {
        i128::from(short_quotient(n as i64, d as i64))
    } else {
        long_quotient(n, d)
    }
}

/// What is left of `n` behind that quotient.
pub(crate) fn remainder(n: i128, d: i128) -> i128
    requires dividend { neg_ℤ (pos (2 ^ 127)) <ℤ n }
    requires divisor { ¬ (d ≡ pos 0) }
    ensures { result ≡ int_rem n d }
{
    if is_short(n) && is_short(d) {
        i128::from(short_remainder(n as i64, d as i64))
    } else {
        long_remainder(n, d)
    }
}

/// Whether 64 bits hold a number and its opposite.
fn is_short(n: i128) -> bool
    ensures { IsTrue result ↔ (unsigned_abs n < 2 ^ 63) }
{
    n.unsigned_abs() < 1 << 63
}

fn short_quotient(n: i64, d: i64) -> i64
    requires dividend { unsigned_abs n < 2 ^ 63 }
    requires divisor { ¬ (d ≡ pos 0) }
    ensures value { result ≡ int_div n d }
    ensures small { unsigned_abs result ≤ unsigned_abs n }
{
    n / d
}

fn short_remainder(n: i64, d: i64) -> i64
    requires dividend { unsigned_abs n < 2 ^ 63 }
    requires divisor { ¬ (d ≡ pos 0) }
    ensures { result ≡ int_rem n d }
{
    n % d
}

fn long_quotient(n: i128, d: i128) -> i128
    requires dividend { neg_ℤ (pos (2 ^ 127)) <ℤ n }
    requires divisor { ¬ (d ≡ pos 0) }
    ensures value { result ≡ int_div n d }
    ensures small { unsigned_abs result ≤ unsigned_abs n }
{
    n / d
}

fn long_remainder(n: i128, d: i128) -> i128
    requires dividend { neg_ℤ (pos (2 ^ 127)) <ℤ n }
    requires divisor { ¬ (d ≡ pos 0) }
    ensures { result ≡ int_rem n d }
{
    n % d
}
