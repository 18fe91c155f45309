//! The arithmetic of the language: whole numbers of 128 bits, computed exactly. Each operation gives its value or
//! the fault that ends a run. No operation allocates.

mod faults;
mod operations;
mod powers;

pub use faults::Fault;
pub use operations::{
    absolute_value, difference, greatest, least, negation, product, quotient, remainder, sum,
};
pub use powers::power;
