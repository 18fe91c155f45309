//! Laws of lists of acts, of runs and their acts, of paths and what they imply for runs, of conflicts and the
//! dependences that cover them, and of bounds that may be evaluated anywhere. No function here does anything; the
//! contracts are the laws. docs/MEANING.md says what the laws are for.
#![tactic(auto)]

pub mod acts;
pub mod conflicts;
pub mod covering;
pub mod flow_runs;
pub mod plain;
pub mod runs;

pub use ped_flow::{Flow, Reader, flow_of, loop_at};
pub use ped_graph::{Graph, Keep, NameRefusal, PairKey, Prepared, Symbols, prepare, symbols_of};
