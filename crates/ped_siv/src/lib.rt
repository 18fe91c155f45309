//! The dependence tests for subscripts in no index or in one common index (Allen and Kennedy, section 3.3). Each is a
//! closed formula, and returns true exactly where its pair, or its group of pairs, excludes a direction. They hold for
//! all coefficients of their forms and constants of 64 bits and all ranges, with steps of both signs. No test takes
//! memory.
#![tactic(auto)]

mod strong;
mod weak_crossing;
mod weak_zero;
mod ziv;

pub use ped_views::StrongRow;
pub use strong::{group_excludes, strong_distance, strong_excludes};
pub use weak_crossing::weak_crossing_excludes;
pub use weak_zero::weak_zero_excludes;
pub use ziv::ziv_excludes;
