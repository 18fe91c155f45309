//! Quotients rounded down.

ghost use Rattle.std.specs.Prelude.{◌≡◌, ◌<ℤ◌, ◌^◌, pos, neg_ℤ};
ghost use Rattle.ped_views.specs.Whole.{IsRoundedDown};

use crate::quotients::{quotient, remainder};

/// The greatest whole number that is at most a / b. The divisor isn't 0, and neither is -2^127.
pub fn floor_div(a: i128, b: i128) -> i128
    requires dividend { neg_ℤ (pos (2 ^ 127)) <ℤ a }
    requires divisor { neg_ℤ (pos (2 ^ 127)) <ℤ b }
    requires divisor_some { ¬ (b ≡ pos 0) }
    ensures { IsRoundedDown a b result }
{
    let whole = quotient(a, b);
    let rest = remainder(a, b);
    if b > 0 {
        if rest < 0 { whole - 1 } else { whole }
    } else {
        if rest > 0 { whole - 1 } else { whole }
    }
}
