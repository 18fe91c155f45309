//! An expression in place of a scalar, in a new tree.

mod conditions;
mod expressions;
mod statements;

pub use conditions::substitute_in_condition;
pub use expressions::substitute;
pub use statements::{substitute_in_loop, substitute_in_statement, substitute_in_statements};
