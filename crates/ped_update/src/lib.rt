//! The dependence graph after a change of the program, and what takes it back. The definitions are in `specs/`.
#![tactic(auto)]

mod deltas;
mod laws;
mod matching;
mod updating;

pub use deltas::{Delta, swap};
pub use laws::second_swap_restores;
pub use ped_graph::{Graph, Keep};
pub use updating::update;
