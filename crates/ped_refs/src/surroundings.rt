//! What surrounds a statement, as far as its references depend on it.

use crate::loops::Loop;
use ped_tree::names::NameSet;

/// What is around a statement.
#[derive(Clone, Copy)]
pub struct Surroundings<'s, 'a> {
    /// The named constants of the program.
    pub constants: &'s NameSet,
    /// The DO loops around the statement, the outermost first.
    pub loops: &'s [Loop<'a>],
}
