//! What the dependence tests report for a pair of references: the direction vectors that no position and no
//! group of its view excludes, and the distances. Only `test` tests a pair, and it counts each call. Only `test`
//! makes a verdict or moves a counter, and neither can be copied. Visibility ensures this, not a contract.
#![tactic(auto)]

mod distances;
mod exactness;
mod exclusion;
mod forms;
mod fronts;
mod groups;
mod listing;
mod places;
mod refining;
mod sights;
mod steps;
mod testing;
mod vectors;
mod walks;

pub use distances::distance;
pub use exactness::is_exact;
pub use listing::vectors_of;
pub use steps::Steps;
pub use testing::{Verdict, test};
pub use vectors::Vector;
