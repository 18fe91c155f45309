//! Loop bodies: laws by which statements with rewritten expressions do likewise at another place, and by which a DO
//! consists of its trips. Each function here does nothing; its contract is the law. docs/MEANING.md explains what the
//! laws are for.
#![tactic(auto)]

mod acts;
mod bodies;
mod likewise;
mod rewriting;
mod trips;
mod values;

pub use acts::{likewise_accesses, likewise_acts};
pub use bodies::{
    bodies_in_other_iterations, bodies_substituted, bodies_with_other_copies, names_of_trips_apart,
};
pub use likewise::{bodies_likewise, statements_likewise};
pub use ped_steps::{
    Change, Flow, Keep, PairKey, Prepared, Reader, Refused, Rule, Scene, StepAnswer, Symbols,
    accesses_are_made, accesses_in_sequence, all_kept, body_with, cause_words, change_to,
    conflicts_are_covered, flow_of, loop_at, loops_round, prepare, program_with, valid_symbols,
};
pub use rewriting::rewritings;
pub use trips::{limits_of_bounds, loops_apart, loops_likewise, loops_made};
pub use values::{values_likewise, values_told_inside};
