//! The store of a running program: what its scalars, its arrays and the private copies of its scalars hold, the
//! remaining data lines, and the lines that it has printed. The definitions of a store, of data lines and of the
//! acts of a run are in `specs/`.
#![tactic(auto)]

mod cells;
mod copies;
mod data_lines;
mod data_text;
mod data_values;
mod faults;
mod iterations;
mod same_names;
mod shapes;
mod slots;
mod store;

pub use cells::Cell;
pub use copies::PrivateCopy;
pub use faults::{FaultKind, RunFault};
pub use iterations::{Iteration, Iterations, mixed};
pub use same_names::is_same_name;
pub use shapes::{Shape, Shapes};
pub use store::Store;
