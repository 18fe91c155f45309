//! Printed lines (ANSI X3.9-1978, sections 3.2 to 3.4) are cut into the statements that were printed, each with the
//! comments and directives before it, and none of them is refused.

mod laws;

pub use laws::{printed_statements_are_cut, program_text_is_printed};
