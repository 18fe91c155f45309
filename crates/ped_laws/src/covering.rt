//! What dependences rest on: the laws by which an edge exists wherever two accesses of a run conflict. Each function
//! here does nothing; its contract is the law. docs/MEANING.md says what the laws are for.

mod forms;
mod intervals;
mod nests;
mod positions;
mod ranges;

pub use forms::values_by_forms;
pub use intervals::values_in_intervals;
pub use nests::{nests_in_ranges, within_around};
pub use positions::{equal_subscripts, equal_values, side_by_side};
pub use ranges::{values_between_limits, values_in_ranges};
