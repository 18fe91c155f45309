//! Intervals of whole numbers.

ghost use Rattle.std.specs.Prelude.{◌≡◌, ◌≤◌, ◌^◌, ◌*ℤ◌, unsigned_abs};

/// The whole numbers from `lo` to `hi`, both among them.
#[derive(Clone, Copy, PartialEq, Eq)]
pub struct Interval {
    /// The least number.
    pub lo: i128,
    /// The greatest number.
    pub hi: i128,
}

impl Interval {
    ghost use Rattle.std.specs.Prelude.{◌≡◌, ◌^◌, ◌+ℤ◌, ◌-ℤ◌, ◌*ℤ◌, ◌≤ℤ◌, neg_ℤ};
    ghost use Rattle.std.specs.Int.{int_max, int_min};
    ghost use Rattle.ped_views.specs.Intervals.{IsWithin, IsImage, IsImageOfBoth};

    /// The least interval with both numbers.
    pub fn between(x: i128, y: i128) -> Interval
        ensures lo { result.lo ≡ int_min x y }
        ensures hi { result.hi ≡ int_max x y }
    {
        Interval {
            lo: x.min(y),
            hi: x.max(y),
        }
    }

    /// The least interval with the numbers of both.
    pub fn join(self, b: Interval) -> Interval
        ensures lo { result.lo ≡ int_min self.lo b.lo }
        ensures hi { result.hi ≡ int_max self.hi b.hi }
    {
        Interval {
            lo: self.lo.min(b.lo),
            hi: self.hi.max(b.hi),
        }
    }

    /// The sums of a number of each interval. The ends are within 2^125 of zero.
    pub fn add(self, b: Interval) -> Interval
        requires first { IsWithin (2 ^ 125) self }
        requires second { IsWithin (2 ^ 125) b }
        ensures { IsImageOfBoth (λ x. λ y. x +ℤ y) self b result }
    {
        Interval {
            lo: self.lo + b.lo,
            hi: self.hi + b.hi,
        }
    }

    /// The differences of a number of each interval. The ends are within 2^125 of zero.
    pub fn sub(self, b: Interval) -> Interval
        requires first { IsWithin (2 ^ 125) self }
        requires second { IsWithin (2 ^ 125) b }
        ensures { IsImageOfBoth (λ x. λ y. x -ℤ y) self b result }
    {
        Interval {
            lo: self.lo - b.hi,
            hi: self.hi - b.lo,
        }
    }

    /// The numbers with the opposite sign. The ends are within 2^125 of zero.
    pub fn neg(self) -> Interval
        requires { IsWithin (2 ^ 125) self }
        ensures { IsImage (λ x. neg_ℤ x) self result }
    {
        Interval {
            lo: -self.hi,
            hi: -self.lo,
        }
    }

    /// The least interval with each product of a number of each interval. The ends are within 2^62 of
    /// zero.
    pub fn mul(self, b: Interval) -> Interval
        requires first { IsWithin (2 ^ 62) self }
        requires second { IsWithin (2 ^ 62) b }
        ensures { IsImageOfBoth (λ x. λ y. x *ℤ y) self b result }
    {
        let at_lo = Interval::between(product(self.lo, b.lo), product(self.lo, b.hi));
        let at_hi = Interval::between(product(self.hi, b.lo), product(self.hi, b.hi));
        at_lo.join(at_hi)
    }

    /// The greater of a number of each interval.
    pub fn max(self, b: Interval) -> Interval
        requires first { self.lo ≤ℤ self.hi }
        requires second { b.lo ≤ℤ b.hi }
        ensures { IsImageOfBoth (λ x. λ y. int_max x y) self b result }
    {
        Interval {
            lo: self.lo.max(b.lo),
            hi: self.hi.max(b.hi),
        }
    }

    /// The lesser of a number of each interval.
    pub fn min(self, b: Interval) -> Interval
        requires first { self.lo ≤ℤ self.hi }
        requires second { b.lo ≤ℤ b.hi }
        ensures { IsImageOfBoth (λ x. λ y. int_min x y) self b result }
    {
        Interval {
            lo: self.lo.min(b.lo),
            hi: self.hi.min(b.hi),
        }
    }
}

fn product(x: i128, y: i128) -> i128
    requires first { unsigned_abs x ≤ 2 ^ 62 }
    requires second { unsigned_abs y ≤ 2 ^ 62 }
    ensures value { result ≡ x *ℤ y }
    ensures small { unsigned_abs result ≤ 2 ^ 124 }
{
    x * y
}
