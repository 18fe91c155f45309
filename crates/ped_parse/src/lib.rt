//! Texts read as trees of programs, or refused (ANSI X3.9-1978, sections 3, 6 and 8 to 12).
#![tactic(auto)]

mod expressions;
mod laws_of_reading;
mod reading;
mod refusals;

pub use expressions::expression;
pub use laws_of_reading::one_tree_or_one_refusal;
pub use reading::read;
pub use refusals::ReadRefusal;
