//! The dependence tests for subscripts in any number of indices (Allen and Kennedy, section 3.3): the GCD test,
//! and Banerjee's test with directions. They allocate no memory and visit loops, never iterations.
#![tactic(auto)]

mod banerjee;
mod bounds;
mod differences;
mod extremes;
mod parts;
mod rows;
mod solutions;

pub use banerjee::{banerjee_excludes, may_refine};
pub use bounds::{Bounds, any_excluded, bounds_from, no_bounds};
pub use parts::{LoopParts, loop_parts, no_rest, rest_from, sum_at_start, sum_with, sums_exclude};
pub use solutions::gcd_excludes;
