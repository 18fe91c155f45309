//! Dependences as the editor shows them: their rows and the dependence pane. The definitions are in `specs/`.
#![tactic(auto)]

mod digits;
mod edges;
mod lists;
mod pane;
mod places;
mod products;
mod rows;
mod signs;
mod vectors;

pub use edges::{Edge, Kind, Mark, ShownEdge, first_of, keep_unrejected};
pub use pane::{edges_pane, push_edges_pane};
pub use rows::{push_kind, push_level, push_row};
