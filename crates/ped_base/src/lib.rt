//! The plain types that every other crate uses: bytes, names, lists, and the bounds of arrays. Contracts
//! see them as plain data. Their definitions for contracts are in `specs/`.
#![tactic(auto)]

pub mod arithmetic;
mod bounds;
mod identifiers;
mod listing;
mod memory;
mod numbers;

pub use bounds::Bounds;
pub use identifiers::{Name, Names, is_among};
pub use listing::{Bytes, Listed};
pub use memory::{NoMemory, both};
pub use numbers::{push_number, push_signed};
