//! Programs printed in normal form: the printed text, the source pane, the printed length of a
//! statement, and how many statements begin on given lines. Each is exactly as defined in `specs/` of ped_tree.
#![tactic(auto)]

mod conditions;
mod counts;
mod declarations;
mod expressions;
mod laws;
mod lengths;
mod lines;
mod nesting;
mod pane;
mod programs;
mod statements;

pub use counts::{BegunStatements, begun};
pub use expressions::push_enclosed;
pub use laws::statements_begin_once;
pub use lengths::{decl_length, do_length, if_length, length, private_length, save_length};
pub use programs::{print, source_pane};
