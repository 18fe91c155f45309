//! Accesses: the reads and writes of a run, with their places.

use ped_base::Listed;
use ped_store::Cell;

/// An iteration of a DO loop that an access is in (ANSI X3.9-1978, section 11.10).
#[derive(Clone, Copy)]
pub struct Turn {
    /// The statement number of the DO.
    pub statement: u32,
    /// Whether it is a PARALLEL DO.
    pub parallel: bool,
    /// The number of the iteration, from 1.
    pub number: u64,
    /// The value of the variable of the DO in it.
    pub value: i128,
}

/// A read or a write of a cell (this project). The entry, the ends of iterations and the exit of a DO are outside that
/// DO.
#[derive(Drop)]
pub struct Access {
    /// The cell.
    pub cell: Cell,
    /// Whether it is a write.
    pub writes: bool,
    /// The number of the statement.
    pub statement: u32,
    /// The number of the reference in the statement, from 1, and 0 where none makes the access: the variable of a DO read
    /// in its body, and what a DO stores on its own account.
    pub reference: u32,
    /// The iterations around the statement, that of the outermost DO first.
    pub path: Listed<Turn>,
}
