//! Sets of places below a width, kept as bits of words, and relations on places. Contracts see a row as
//! one truth value for each place, and a matrix as its rows.
#![tactic(auto)]

mod lanes;
mod rows;
mod square;
mod words;

pub use lanes::{and_not_lanes, is_subset_lanes, meets_lanes, or_lanes};
pub use rows::Row;
pub use square::Matrix;
