//! The versions of a program that is edited: the present one with its dependence graph, and the past and future ones
//! with what changes between them. A change makes a valid program the present one and tests the pairs of references
//! that are new; `undo` and `redo` go along the history, and take no memory. The definitions are in `specs/`. Contracts
//! see the versions as texts: past sources, the present one, future ones, and between neighbours the kind of the change.
#![tactic(auto)]

mod changes;
mod changing;
mod editing;
mod flags;
mod keeping;
mod moving;
mod splices;
mod versions;

pub use changes::ChangeKind;
pub use ped_history::{NothingToRedo, NothingToUndo};
pub use ped_update::{Graph, Keep};
pub use ped_valid::{OpenRefusal, Opened, Symbols, open_program};
pub use splices::{line_count, spliced};
pub use versions::{Present, Versions};
