//! Differences and products of 64-bit numbers, exact in 128 bits.

ghost use Rattle.std.specs.Prelude.{◌≡◌, ◌<◌, ◌≤◌, ◌^◌, ◌-ℤ◌, ◌*ℤ◌, unsigned_abs};

/// `x - y`, which is within 2^64 of zero.
pub fn difference(x: i64, y: i64) -> i128
    ensures value { result ≡ x -ℤ y }
    ensures small { unsigned_abs result < 2 ^ 64 }
{
    i128::from(x) - i128::from(y)
}

/// `x * y`, which is within 2^126 of zero.
pub fn product(x: i64, y: i64) -> i128
    ensures value { result ≡ x *ℤ y }
    ensures small { unsigned_abs result ≤ 2 ^ 126 }
{
    i128::from(x) * i128::from(y)
}
