//! Reductions: the iterations of a DO may run in any order although all of them add to some scalars. A list at the
//! front of the body names these scalars; `reduce` puts it there. `lower` replaces each DO that has a live list by
//! a PARALLEL DO and a DO that adds up. The definitions are in `specs/`.
#![tactic(auto)]

mod edges;
mod laws;
mod lists;
mod lowering;
mod origins;
mod partials;
mod privacy;
mod reducing;
mod referring;
mod rules;
mod summing;
mod sums;

pub use laws::{lowering_keeps_the_meaning, one_lowering, reduction_is_lawful};
pub use lists::has_list;
pub use lowering::{Lowered, lower};
pub use reducing::reduce;
