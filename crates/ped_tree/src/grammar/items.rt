//! What each statement says, before statements are nested. The text of each statement is read by itself. The order, the
//! blocks and the loops of the program are checked on these items.

use crate::grammar::statements::Statement;
use crate::{Cond, Decl, Expr, Stmt};
use ped_base::{Name, Names};

/// A DO statement by itself (ANSI X3.9-1978, section 11.10).
#[derive(Drop)]
pub struct DoStatement {
    /// The label of the statement that ends the loop, 1 to 99999; none where it has none.
    pub label: Option<u32>,
    /// The DO variable.
    pub variable: Name,
    /// The initial value.
    pub first: Expr,
    /// The limit.
    pub last: Expr,
    /// The increment, a literal 1 where none is written.
    pub step: Expr,
    /// Whether it is a PARALLEL DO.
    pub parallel: bool,
}

/// What a statement says.
#[derive(Drop)]
pub enum Item {
    /// A declaration, other than SAVE without a list.
    Declaration(Decl),
    /// SAVE without a list.
    SaveAll,
    /// An assignment, PRINT, READ or STOP.
    Simple(Stmt),
    /// CONTINUE.
    Continue,
    /// A logical IF with the statement after it, none for CONTINUE (section 11.5).
    LogicalIf(Cond, Option<Stmt>),
    /// `IF (..) THEN`
    BlockIf(Cond),
    /// `ELSE IF (..) THEN`
    ElseIf(Cond),
    /// ELSE
    Else,
    /// END IF
    EndIf,
    /// A DO statement.
    Do(DoStatement),
    /// END DO
    EndDo,
    /// PRIVATE and its names.
    Private(Names),
    /// END
    End,
}

/// What the text of a statement is.
#[derive(Drop)]
pub enum StatementReading {
    /// A statement of the profile.
    Says(Item),
    /// A statement of FORTRAN 77 that the profile leaves out.
    OutsideProfile,
    /// No statement.
    NoForm,
}

/// A statement of a text with what it says.
#[derive(Drop)]
pub struct Entry {
    /// The statement.
    pub statement: Statement,
    /// What its text is.
    pub reading: StatementReading,
}
