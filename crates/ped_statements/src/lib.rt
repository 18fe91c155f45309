//! Statements read from texts without blanks, each by itself (ANSI X3.9-1978, sections 8 to 12). A
//! text is read as a statement exactly where some form of the grammar has it.
#![tactic(auto)]

mod conditionals;
mod declarations;
mod keyword_statements;
mod keywords;
mod laws_of_statements;
mod loops;
mod names;
mod outside_profile;
mod simple_statements;
mod statements;

pub use laws_of_statements::one_item;
pub use ped_expressions::{Reading, read_expression};
pub use statements::read_statement;
