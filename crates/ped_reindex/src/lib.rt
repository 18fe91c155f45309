//! Steps that renumber the iterations of a DO and keep their order. `skew` shifts the bounds of the inner of two DO
//! loops by a multiple of the outer one's variable. `strip` does the iterations in strips. `peel` takes the first or
//! the last iteration out of the DO. The definitions are in `specs/`.
#![tactic(auto)]

mod iterations;
mod laws;
mod lists;
mod peeling;
mod skewing;
mod stripping;

pub use laws::{peeling_is_lawful, skewing_is_lawful, stripping_is_lawful};
pub use peeling::peel;
pub use skewing::skew;
pub use stripping::strip;
