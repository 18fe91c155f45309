//! What the ranges of loops and the forms of subscripts depend on.

use ped_refs::Loop;
use ped_tree::Expr;
use ped_tree::constants::Consts;
use ped_tree::names::NameSet;

/// What ranges and forms depend on in addition to the loops around a statement. It is made once for an outermost DO.
#[derive(Clone, Copy)]
pub struct Setting<'a> {
    /// The named constants of the program with their values.
    pub constants: &'a Consts,
    /// The variables of all DO loops of the program.
    pub loop_variables: &'a NameSet,
    /// What the outermost DO around the statement assigns: its variable, its private names, and what its
    /// body assigns.
    pub assigned: &'a NameSet,
}

/// The place of a reference.
#[derive(Clone, Copy)]
pub struct Place<'a> {
    /// The DO loops around it, the outermost first.
    pub nest: &'a [Loop<'a>],
    /// Its subscripts, none for a scalar.
    pub subscripts: &'a [Expr],
}
