//! Steps that take DO loops apart and put them together. `distribute` makes separate DO loops of what needn't stay in
//! one, and orders them. The definitions are in `specs/`.
#![tactic(auto)]

mod alike;
mod arrows;
mod distributing;
mod fusing;
mod joining;
mod keeping;
mod laws;
mod neighbours;
mod pi_blocks;
mod returning;
mod units;

pub use distributing::distribute;
pub use fusing::fuse;
pub use laws::{distribution_is_lawful, fusion_is_lawful};
