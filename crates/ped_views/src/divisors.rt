//! Greatest common divisors.

ghost use Rattle.std.specs.Prelude.{◌≡◌, ◌<ℤ◌, ◌<◌, ◌*◌, ◌%◌, ◌^◌, ℕ, pos, neg_ℤ};
ghost use Rattle.std.specs.Int.{IsGcd, bit_at};
ghost use Rattle.ped_views.specs.Whole.{IsGreatestDivisor};

/// The greatest common divisor of two numbers, which isn't negative; that of 0 and 0 is 0. Neither number
/// is -2^127.
pub fn gcd(a: i128, b: i128) -> i128
    requires first { neg_ℤ (pos (2 ^ 127)) <ℤ a }
    requires second { neg_ℤ (pos (2 ^ 127)) <ℤ b }
    ensures { IsGreatestDivisor a b result }
{
    gcd_of_sizes(a.unsigned_abs(), b.unsigned_abs()) as i128
}

/// The greatest common divisor of the sizes of two numbers, without a division where both fit in 64 bits, as the
/// coefficients of subscripts do: a division takes as long as several steps of the binary algorithm.
fn gcd_of_sizes(a: u128, b: u128) -> u128
    ensures divisor { IsGcd a b result }
    ensures small { a < 2 ^ 127 → b < 2 ^ 127 → result < 2 ^ 127 }
{
    let most = u128::from(u64::MAX);
    if a <= most && b <= most {
        u128::from(binary_gcd(a as u64, b as u64))
    } else {
        euclidean_gcd(a, b)
    }
}

/// Euclid's algorithm.
fn euclidean_gcd(a: u128, b: u128) -> u128
    ensures divisor { IsGcd a b result }
    ensures small { a < 2 ^ 127 → b < 2 ^ 127 → result < 2 ^ 127 }
{
    let mut x = a;
    let mut y = b;
    while y != 0 {
        let rest = x % y;
        x = y;
        y = rest;
    }
    x
}

/// The binary algorithm (Knuth, The Art of Computer Programming, section 4.5.2, algorithm B): the twos that both
/// numbers have are put aside, so that one of them is odd.
fn binary_gcd(a: u64, b: u64) -> u64
    ensures { IsGcd a b result }
{
    if a == 0 {
        return b;
    }
    if b == 0 {
        return a;
    }
    let twos = lowest_one(a | b);
    let first = a >> twos;
    let second = b >> twos;
    let divisor = if first % 2 == 1 {
        gcd_with_odd(first, second)
    } else {
        gcd_with_odd(second, first)
    };
    divisor << twos
}

/// The greatest common divisor of an odd number and another one. A step takes the twos out of the second and goes
/// on with the lesser and the difference, which is even. So each step but the first halves the sum of the two odd
/// numbers at least.
fn gcd_with_odd(odd: u64, other: u64) -> u64
    requires { odd % 2 ≡ 1 }
    ensures { IsGcd odd other result }
{
    let mut x = odd;
    let mut y = other;
    while y != 0 {
        if x == 1 {
            return 1;
        }
        let z = odd_part(y);
        y = x.abs_diff(z);
        x = x.min(z);
    }
    x
}

/// What is left of a number that isn't 0 once each factor of two is taken out.
fn odd_part(n: u64) -> u64
    requires { 0 < n }
    ensures odd { result % 2 ≡ 1 }
    ensures twos { (k : ℕ) × (result * 2 ^ k ≡ n) }
{
    n >> lowest_one(n)
}

/// The place of the lowest one among the bits of a number that isn't 0.
fn lowest_one(n: u64) -> u32
    requires { 0 < n }
    ensures within { result < 64 }
    ensures one { bit_at n result ≡ 1 }
    ensures zeros { (i : ℕ) → i < result → bit_at n i ≡ 0 }
{
    n.trailing_zeros()
}
