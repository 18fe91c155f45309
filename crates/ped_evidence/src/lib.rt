//! Systems of pairs of references: what the values of their loops' variables, and of other variables, satisfy wherever
//! both touch one cell. A certificate that refutes such a system disproves dependences. The definitions are in `specs/`.
#![tactic(auto)]

mod affine;
mod claimed;
mod forms;
mod judging;
mod laws;
mod layouts;
mod levels;
mod pair_rows;
mod printing;
mod side_rows;
mod symbols;
mod systems;
mod telling;

pub use judging::{is_disproved, judge};
pub use laws::{accesses_meet_system, disproved_are_of_elements, disproved_never_meets};
pub use ped_certificates::{Claim, Evidence, EvidenceLine, Position, Sign};
pub use telling::system_text;
