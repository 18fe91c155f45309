//! The statements that a change of a program keeps.

use ped_base::Listed;

/// Statements that a change keeps: the number of each before the change, and its number after it.
pub type Keep = Listed<(u32, u32)>;
