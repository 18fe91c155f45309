//! Steps on scalars: `privatise` gives each iteration of a DO its own copy of a scalar, and `expand` its own element
//! of an array. Each step returns the new program, or the first cause against it. The definitions are in `specs/`.
#![tactic(auto)]

mod elements;
mod expanding;
mod keeping;
mod laws;
mod privatising;
mod referring;
mod scalars;

pub use expanding::expand;
pub use laws::{
    expanding_is_lawful, expanding_keeps, expanding_rejects_nothing, expanding_stays_tidy,
    one_cause_against_expanding, one_cause_against_privatising, privatising_is_lawful,
    privatising_keeps, privatising_rejects_nothing, privatising_stays_tidy,
};
pub use privatising::privatise;
