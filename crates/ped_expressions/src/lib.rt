//! Arithmetic expressions and conditions (ANSI X3.9-1978, section 6) read from texts without blanks. Readers of a whole
//! text return a tree exactly where some form of the grammar has the text. Readers of the front of a text return what a
//! reading from left to right finds there, and the rest.
#![tactic(auto)]

mod conditions;
mod expressions;
mod laws;
mod literals;
mod operators;
mod readings;
mod scanning;

pub use conditions::{cond, read_condition};
pub use expressions::{expr, primary, read_expression, read_reference};
pub use laws::{
    one_condition, one_expression, one_reference, printed_condition, printed_expression,
    printed_reference,
};
pub use literals::{cond_has_large_literal, has_large_literal};
pub use readings::{Failure, Reading};
pub use scanning::{
    after, begins_with_digit, begins_with_letter, intrinsic_of, literal_value, name_of,
    split_digits, split_word,
};
