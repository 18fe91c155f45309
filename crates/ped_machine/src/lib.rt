//! A machine that runs a program whose PARALLEL DO loops proceed in any order, one step per choice. It keeps only the
//! iterations that have been started, so a loop of any count opens at once.
#![tactic(auto)]

mod acts;
mod levels;
mod machine;
mod opens;
mod parts;
mod rests;
mod steps;
mod turns;
mod works;

pub use machine::{Machine, run_by_choices};
pub use steps::Step;
