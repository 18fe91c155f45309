//! Runs before and after a step: laws of scalars that mean other cells, of the bounds that statements use, of executions
//! of a DO, and of programs that keep a meaning. Each function here does nothing; its contract is the law, and
//! docs/MEANING.md says what the laws are for.

mod bounds;
mod exchanging;
mod executions;
mod meaning;

pub use bounds::own_bounds;
pub use exchanging::cells_exchanged;
pub use executions::{executions_enter, executions_leave};
pub use meaning::keeping;
