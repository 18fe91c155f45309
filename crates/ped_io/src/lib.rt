//! The outside: shelves, whose files are read by name, and sinks, which take bytes. Both may fail,
//! and count their faults. `load` reads a whole file and `put_all` writes a whole text, or says why
//! it can't. Shelves and sinks in memory stand in for those of the machine.
#![tactic(auto)]

mod counting;
mod held_files;
mod loading;
mod memory_shelf;
mod memory_sink;
mod outside;
mod sure_shelf;
mod sure_sink;
mod writing;

pub use counting::Calls;
pub use held_files::Files;
pub use loading::{LoadError, load};
pub use memory_shelf::MemShelf;
pub use memory_sink::MemSink;
pub use outside::{OutsideFault, Shelf, Sink};
pub use sure_shelf::SureShelf;
pub use sure_sink::SureSink;
pub use writing::{PutFault, put_all};
