//! Lines of fixed form (ANSI X3.9-1978, section 3.2) grouped into statements: each with its label, its
//! text without blanks, and the comments and directives that go with it; or the first refusal.
#![tactic(auto)]

mod characters;
mod columns;
mod cutting;
mod errors;
mod notes;
pub mod printed;
mod refusals;
mod text_lines;

pub use cutting::statements;
pub use errors::LinesError;
