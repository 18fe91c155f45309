//! The trees that fit are those that some text reads as. The printed text of each reads as that tree, and as no other.

mod laws;

pub use laws::{fits_where_read, printed_program};
