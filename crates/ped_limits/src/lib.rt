//! The limits of the language, checked on trees and on what statements say. Refusing a text and asking
//! whether a tree fits both use these numbers and calls.
#![tactic(auto)]

mod constants;
mod counting;
mod limits;
mod literals;
mod numbering;

pub use counting::{cond_references, do_references, references, references_declared};
pub use limits::{
    GREATEST_LITERAL, MOST_BLOCKS_NESTED, MOST_CHARACTERS, MOST_DIMENSIONS, MOST_LOOPS_NESTED,
    MOST_NAME, MOST_REFERENCES, MOST_STATEMENTS,
};
pub use literals::{
    decl_has_large_literal, has_eight_dimensions, head_has_large_literal, stmt_has_large_literal,
};
pub use numbering::statement_count;
pub use ped_expressions::intrinsic_of;
pub use ped_print::{decl_length, length, private_length};
