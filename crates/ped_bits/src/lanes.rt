//! Operations on a group of eight words at once, a lane for each word.

ghost use Rattle.std.specs.Prelude.{◌≡◌, ℕ, ◌<◌, bit_and, bit_or, length, IsTrue, ◌↔◌};
ghost use Rattle.std.specs.Int.{bit_not, w64};
ghost use Rattle.std.specs.Simd.Lanes.{zip2};
ghost use Rattle.ped_bits.specs.Words.{word};

use std::simd::prelude::*;

/// The bits of both, lane by lane.
pub fn or_lanes(a: Simd<u64, 8>, b: Simd<u64, 8>) -> Simd<u64, 8>
    ensures { result ≡ zip2 bit_or a b }
{
    a | b
}

/// The bits of `a` that `b` doesn't have, lane by lane.
pub fn and_not_lanes(a: Simd<u64, 8>, b: Simd<u64, 8>) -> Simd<u64, 8>
    ensures { result ≡ zip2 (λ x y. bit_and x (bit_not w64 y)) a b }
{
    a & !b
}

/// Whether some lane has a common bit.
pub fn meets_lanes(a: Simd<u64, 8>, b: Simd<u64, 8>) -> bool
    ensures { IsTrue result ↔ ((j : ℕ) × ¬ (bit_and (word a j) (word b j) ≡ 0)) }
{
    (a & b).reduce_or() != 0
}

/// Whether in each lane every bit of `a` is in `b`.
pub fn is_subset_lanes(a: Simd<u64, 8>, b: Simd<u64, 8>) -> bool
    requires { length a ≡ length b }
    ensures { IsTrue result ↔ ((j : ℕ) → bit_and (word a j) (bit_not w64 (word b j)) ≡ 0) }
{
    (a & !b).reduce_or() == 0
}
