//! The printed text of a single statement or declaration reads as it, and as nothing else.

mod laws;

pub use laws::{
    printed_declaration, printed_private, printed_save, printed_statement, printed_words,
};
