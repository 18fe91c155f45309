//! The refusals of statements (ANSI X3.9-1978, sections 3.5, 8 and 11; limits of the profile): which of
//! those at the statements of a text is the first.
#![tactic(auto)]

mod blocks;
mod contexts;
mod directives;
mod indices;
mod limits;
mod occurrences;
mod refusals;
mod saving;
mod structure;

pub use refusals::first_refusal;
pub use saving::saved_names;
