//! The dependence graph of a program: one verdict for each pair of references, and what else the dependence pane
//! needs of the tree. The definitions are in `specs/`.
#![tactic(auto)]

mod edges;
pub mod extents;
mod facts;
mod firmness;
mod frames;
mod graph;
mod guards;
mod keeping;
mod laws;
mod levels;
mod names;
pub mod numbered;
pub mod own_facts;
mod owners;
mod parts;
pub mod preparing;
mod printing;
mod rejections;
pub mod rounds;
mod selections;
pub mod sides;
mod telling;
pub mod testing;
mod told;

pub use frames::{Frame, PairKey};
pub use graph::{Graph, Prepared, prepare};
pub use keeping::Keep;
pub use laws::{one_dependence_pane, one_dependence_pane_of};
pub use parts::{Kept, Parts, Slot};
pub use ped_symbols::{Kind, NameRefusal, Symbols, symbols_of};
