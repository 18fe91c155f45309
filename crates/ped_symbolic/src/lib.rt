//! Sums, differences and products of expressions, and an expression in place of a scalar. Each call makes a new
//! tree and leaves the old ones as they are. `specs/` defines the new tree.
#![tactic(auto)]

mod arithmetic;
mod literals;
mod substitution;

pub use arithmetic::{minus, plus, times};
pub use substitution::{
    substitute, substitute_in_condition, substitute_in_loop, substitute_in_statement,
    substitute_in_statements,
};
