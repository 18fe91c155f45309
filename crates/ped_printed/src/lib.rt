//! Laws of printing: the printed text of statements, declarations and whole programs reads as these, and as nothing
//! else.
#![tactic(auto)]

pub mod programs;
pub mod statements;
