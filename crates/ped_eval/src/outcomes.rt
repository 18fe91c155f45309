//! Outcomes of programs.

use ped_base::{Bytes, Listed, Name};
use ped_store::RunFault;

/// A live-out variable with what it holds at the end.
#[derive(Drop)]
pub struct LiveRow {
    /// Its name.
    pub name: Name,
    /// Its values, those of an array in storage order (ANSI X3.9-1978, section 5.2.4); none stands for one that is
    /// undefined.
    pub values: Listed<Option<i128>>,
}

/// How a program ends.
#[derive(Drop)]
pub enum Outcome {
    /// By END or STOP.
    Ended {
        /// The lines that it has printed.
        output: Listed<Bytes>,
        /// Its live-out variables, the names in SAVE, in the byte order of their names (ANSI X3.9-1978, section 8.9).
        live: Listed<LiveRow>,
    },
    /// By a fault.
    Fault {
        /// What it is.
        fault: RunFault,
        /// The statement that met it.
        statement: u32,
    },
}
