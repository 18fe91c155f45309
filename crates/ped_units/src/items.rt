//! What the statements in files of program units are.

use ped_base::{Name, Names};
use ped_tree::grammar::{Statement, StatementReading};
use ped_tree::{Cond, Expr};

/// A CALL (ANSI X3.9-1978, section 15.6.2).
#[derive(Drop)]
pub struct Called {
    /// The subroutine's name.
    pub name: Name,
    /// The arguments.
    pub arguments: Vec<Expr>,
}

/// What the text of a statement is.
#[derive(Drop)]
pub enum UnitItem {
    /// A statement of the profile, one that it leaves out, or none.
    Plain(StatementReading),
    /// A CALL.
    Call(Called),
    /// A logical IF with a CALL after it (section 11.5).
    LogicalIfCall(Cond, Called),
    /// SUBROUTINE with the subroutine's name and its dummy arguments (section 15.6.1).
    Subroutine(Name, Names),
    /// RETURN (section 15.8).
    Return,
}

/// A statement of a file with what it is.
#[derive(Drop)]
pub struct UnitEntry {
    /// The statement.
    pub statement: Statement,
    /// What its text is.
    pub item: UnitItem,
}
