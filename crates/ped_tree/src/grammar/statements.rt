//! Statements grouped from lines, and the comments and directives that go with them.

use ped_base::{Bytes, Listed};

/// A comment or a directive.
#[derive(Drop)]
pub struct NoteLine {
    /// The line's number, from 1.
    pub line: u64,
    /// A comment's columns 2 to 72 without blanks and carriage returns at the end; of a directive what
    /// follows `$PED` there, without blanks and in capitals.
    pub text: Bytes,
}

/// A statement.
#[derive(Drop)]
pub struct Statement {
    /// The number of its first line, from 1.
    pub line: u64,
    /// Its label, 1 to 99999, where it has one.
    pub label: Option<u32>,
    /// Its columns 7 to 72, joined over its lines: outside constants without blanks and in capitals, and
    /// constants as they are written, with their apostrophes; one blank separates two constants with
    /// only blanks between them.
    pub text: Bytes,
    /// The comments before it and between its lines.
    pub comments: Listed<NoteLine>,
    /// The directives before it and between its lines.
    pub directives: Listed<NoteLine>,
}

/// All statements of a text.
#[derive(Drop)]
pub struct Statements {
    /// The statements in their order.
    pub statements: Listed<Statement>,
    /// The comments after the last statement.
    pub comments: Listed<NoteLine>,
    /// The directives after the last statement.
    pub directives: Listed<NoteLine>,
    /// The number of lines.
    pub lines: u64,
}
