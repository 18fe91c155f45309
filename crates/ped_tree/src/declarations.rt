//! Declarations, and the whole program.

ghost use Rattle.std.specs.Prelude.{◌≡◌, map};

use crate::expressions::Expr;
use crate::statements::Stmt;
use ped_base::{Bytes, Listed, Name, Names};

/// The bounds of one dimension (ANSI X3.9-1978, section 5.1.1.1).
#[derive(Drop)]
pub struct Bound {
    /// The lower bound, a literal 1 where none is written.
    pub lower: Expr,
    /// The upper bound.
    pub upper: Expr,
}

/// A declared name with the bounds of its dimensions, none for a scalar.
#[derive(Drop)]
pub struct Declarator {
    /// The name.
    pub name: Name,
    /// The bounds, dimension by dimension.
    pub bounds: Vec<Bound>,
}

/// A statement before the executable ones, or a comment among them (ANSI X3.9-1978, section 8).
#[derive(Drop)]
pub enum Decl {
    /// `PROGRAM name`.
    Program(Name),
    /// `IMPLICIT INTEGER (A-Z)`.
    Implicit,
    /// `INTEGER` and its declarators.
    Integer(Vec<Declarator>),
    /// `DIMENSION` and its array declarators.
    Dimension(Vec<Declarator>),
    /// `PARAMETER` and its named constants, each with its value.
    Parameter(Vec<(Name, Expr)>),
    /// `SAVE` and its names.
    Save(Names),
    /// A comment by its text, which begins in column 2 (section 3.2.1).
    Comment(Bytes),
}

/// A main program.
#[derive(Drop)]
pub struct Program {
    /// The declarations, in order.
    pub decls: Vec<Decl>,
    /// The executable statements, in order; END is no part of the tree.
    pub body: Vec<Stmt>,
    /// The first line of each declaration that is no comment, of each numbered statement and of each
    /// PRIVATE statement, in text order; empty where the tree wasn't read from a text.
    pub lines: Vec<u64>,
}

/// Named constants with their values.
pub type Consts = Listed<(Name, i64)>;
