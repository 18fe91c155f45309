//! Program units: a main program and the subroutines after it (ANSI X3.9-1978, sections 2.4 and 15.6).

use ped_base::{Name, Names};
use ped_tree::Program;

/// A program unit.
#[derive(Drop)]
pub struct ProgramUnit {
    /// The subroutine's name; none of a main program.
    pub name: Option<Name>,
    /// The dummy arguments.
    pub formals: Names,
    /// The line of the SUBROUTINE statement; 0 of a main program.
    pub line: u64,
    /// The declarations and statements with their first lines. A CALL is represented by an assignment to a literal.
    pub program: Program,
}
