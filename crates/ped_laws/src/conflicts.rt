//! Conflicts of a run and the dependences that cover them: where two accesses conflict in one execution of a loop
//! around both, the program has a dependence for it. Each function here does nothing, or calls the laws that its own
//! rests on; its contract is the law. docs/MEANING.md says what the laws are for.

mod covering;
mod making;
mod possible;
mod sequence;

pub use covering::{conflicts_are_covered, races_are_covered};
pub use making::accesses_are_made;
pub use possible::directions_are_possible;
pub use sequence::accesses_in_sequence;
