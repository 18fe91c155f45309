//! What holds for the statements of a valid program: names are used only where their kinds may be used.

mod laws;

pub use laws::{constants_have_values, kind_found, kinds_told_by_names, right_where_valid};
