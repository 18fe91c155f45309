//! The limits of the language as numbers; exceeding one is refused.

/// The most characters of a name.
pub const MOST_NAME: usize = 31;

/// The greatest literal.
pub const GREATEST_LITERAL: u32 = 2_147_483_647;

/// The most dimensions of an array (ANSI X3.9-1978, section 5.1.1).
pub const MOST_DIMENSIONS: usize = 7;

/// The most numbered statements of a program.
pub const MOST_STATEMENTS: usize = 4_000;

/// The most DO loops in one another.
pub const MOST_LOOPS_NESTED: usize = 6;

/// The most loops and IFs in one another, each ELSE IF an IF more.
pub const MOST_BLOCKS_NESTED: usize = 100;

/// The most references of one statement.
pub const MOST_REFERENCES: usize = 64;

/// The most characters of one printed statement, without its indentation.
pub const MOST_CHARACTERS: usize = 1_300;
