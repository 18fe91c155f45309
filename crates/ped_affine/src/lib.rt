//! Ranges of loops and views of pairs of references, in a program's tree. The definitions are in `specs/`.
#![tactic(auto)]

mod assigning;
mod bounds;
mod coefficients;
mod folding;
mod forms;
mod intervals;
mod names;
mod others;
mod positions;
mod ranges;
mod settings;
mod subscripts;
mod views;

pub use assigning::{assigned, loop_variables};
pub use ranges::{interval, range};
pub use settings::{Place, Setting};
pub use views::view;
