//! `auto`: one command that parallelises the present program by accepted steps, and says why each remaining DO stays
//! serial. It works over any editor (`Editor`). It knows only how the editor's state reads as a program and what the
//! editor makes of commands. The strategy is one definition over these (`IsAuto`).
#![tactic(auto)]

mod editor;
mod laws;
mod report;
mod strategy;

pub use editor::Editor;
pub use laws::{accepted_are_commands, auto_replays, one_auto};
pub use report::AutoReport;
pub use strategy::auto;
