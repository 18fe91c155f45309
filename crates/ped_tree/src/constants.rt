//! Named constants, and the values of constant expressions over them.

mod expressions;
mod named;

pub use expressions::constant;
pub use named::Consts;
