//! Ranges of loops.

use std::marker::Model;

/// The values that a loop's index takes (ANSI X3.9-1978, section 11.10.3): from `lo` to `hi`, both
/// within 2^62 of zero, by `step`, which isn't 0 and is at most 2147483647 in size. Where `hi` is below
/// `lo` the loop doesn't run. `steady` says that the loop is entered at one initial value, so that two
/// of its index values differ by a multiple of the step.
#[derive(Clone, Copy, PartialEq, Eq)]
pub struct LoopRange {
    /// The least value.
    pub lo: i64,
    /// The greatest value.
    pub hi: i64,
    /// The step.
    pub step: i64,
    /// Whether the loop is entered at one initial value.
    pub steady: bool,
}

impl Model for LoopRange {
    ghost use Rattle.ped_views.specs.Views.{Range};

    ghost Value = { Range };

    ghost use Rattle.ped_views.specs.Limits.{IsRange};

    ghost view = { λ r. record { lo = r.lo; hi = r.hi; step = r.step; steady = r.steady } };

    ghost invariant = { λ r. IsRange r.lo r.hi r.step };

    ghost inverse = { λ r. record { lo = r.lo; hi = r.hi; step = r.step; steady = r.steady } };
}
