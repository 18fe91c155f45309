//! Certificates that a system of equations and inequalities has no solution in whole numbers, and the checker that takes
//! them. Whoever looks for a certificate needn't be trusted: where the checker says yes, no whole numbers satisfy the system.
//! A claim says of which references a certificate speaks.
#![tactic(auto)]

mod checking;
mod claims;
mod copies;
mod laws;
mod numbers;
mod parts;
mod rows;
mod sums;
mod systems;
mod texts;

pub use checking::refutes;
pub use claims::{Claim, Evidence, EvidenceLine, Position, Sign};
pub use copies::copy_evidence;
pub use laws::nothing_meets;
pub use parts::Parts;
pub use systems::{Part, Row, Step, System};
pub use texts::{push_pattern, push_place};
