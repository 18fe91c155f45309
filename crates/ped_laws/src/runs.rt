//! Runs and their acts: laws of runs that rest on the definition of runs and on the laws of lists of acts. Each
//! function here does nothing; its contract is the law. docs/MEANING.md says what the laws are for.

mod evaluations;
mod joining;
mod parting;
mod pieces;
mod places;
mod programs;
mod touching;

pub use evaluations::seen_values;
pub use joining::{
    conditions_joined, loops_joined, parallel_turns_joined, simple_statements, statements_joined,
    turns_joined,
};
pub use parting::{
    conditions_parted, loops_parted, parallel_turns_parted, statements_parted, turns_parted,
};
pub use pieces::{one_run, own_store, told_by_acts};
pub use places::{one_kind, own_numbers};
pub use programs::{program_runs, same_outcome};
pub use touching::{
    lines_are_written, own_stores, reads_find_numbers, references_conflict, references_meet,
};
