//! The report of races of a program.

use ped_store::{Cell, RunFault};

/// What is found of a program on its data.
#[derive(Clone, Copy)]
pub enum RaceReport {
    /// It runs without a fault, and no two accesses race.
    NoRace,
    /// Two accesses race: they conflict in two iterations of one execution of a PARALLEL DO. The later one is the first
    /// access of the run that races with an earlier one, and the earlier one is the earliest that it races with.
    Race {
        /// The cell that both touch.
        cell: Cell,
        /// The statement of the earlier access.
        first: u32,
        /// The statement of the later access.
        second: u32,
    },
    /// The run meets a fault, and no access before it races with an earlier one.
    Fault {
        /// What it is.
        fault: RunFault,
        /// The statement that met it.
        statement: u32,
    },
}
