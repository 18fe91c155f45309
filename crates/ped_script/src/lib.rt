//! The commands of a script, each with its line. A command is a line of words that follows one row of a table. The text
//! of an edit, and the evidence of a step, are the lines after it, up to a period alone.
#![tactic(auto)]

mod claims;
mod items;
mod kinds;
mod laws;
mod lines;
mod reading;
mod rows;
mod steps;
mod texts;
mod words;

pub use items::{Command, Item, Script};
pub use kinds::{CommandKind, HistoryMove, LineEdit, ProgramRun, Query, StepCommand, WhichStep};
pub use laws::{one_command, rows_are_commands};
pub use lines::TextLines;
pub use ped_certificates::{EvidenceLine, Position, Sign};
pub use reading::commands;
pub use texts::command_text;
