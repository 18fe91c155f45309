//! The state of each iteration of an open PARALLEL DO: waiting, running or done.
//! A loop of any count is opened in constant memory, and a stretch of finished iterations takes one entry.
#![tactic(auto)]

mod marks;
mod stretches;

pub use marks::{Mark, Marks};
