//! Which trees are programs of the profile. A tree fits exactly where some text reads as it. Its printed
//! text then reads as that tree only. Steps check trees that were not read from a text.
#![tactic(auto)]

mod comments;
mod declarations;
mod expressions;
mod loops;
mod names;
mod programs;
mod statements;
mod surroundings;

pub use ped_printed::programs::{fits_where_read, printed_program};
pub use programs::fits;
