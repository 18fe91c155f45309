//! The machine's files and standard output as a shelf and a sink. Each keeps a log of what it was asked and what it
//! answered. Only clauses read the log, and so they state which bytes were given and taken.
#![tactic(auto)]

mod disk;
mod log;
mod output;

pub use disk::DiskShelf;
pub use log::Log;
pub use output::StdSink;
