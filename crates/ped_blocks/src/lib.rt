//! Statements nested into a program: block IFs and DO loops, which end at their own statements or at
//! a shared one (ANSI X3.9-1978, sections 11.6 to 11.10).
#![tactic(auto)]

mod declarations;
mod directives;
mod frames;
mod laws_of_blocks;
mod lines;
mod nesting;
mod programs;

pub use laws_of_blocks::{nests_or_refused, one_nesting, one_tree, reads_or_refused};
pub use programs::program_of;
