//! Systems of equations and inequalities in whole numbers, and the steps of a certificate.

use crate::parts::Parts;
use ped_base::Listed;

/// An equation or an inequality: a sum of multiples of the unknowns and of a constant that is 0, or that is at least 0.
#[derive(Drop)]
pub struct Row {
    /// The coefficient of each unknown, in the order of the unknowns.
    pub coefficients: Listed<i128>,
    /// The constant.
    pub constant: i128,
    /// Whether the sum is 0; else it is at least 0.
    pub equation: bool,
}

/// Rows that are to hold together.
#[derive(Drop)]
pub struct System {
    /// The number of unknowns.
    pub unknowns: usize,
    /// The rows.
    pub rows: Listed<Row>,
}

/// A multiple of a row.
#[derive(Clone, Copy, Drop)]
pub struct Part {
    /// The number of the row, from 1: those of the system, then those that steps have added.
    pub row: u32,
    /// By what it is multiplied: an inequality by no negative number.
    pub factor: i32,
}

/// A step of a certificate. It closes the branch of the proof that is open, adds a row to it, or divides it into two.
#[derive(Drop)]
pub enum Step {
    /// Adds the sum of these parts, divided by a number that divides each coefficient; the constant is rounded down
    /// (Schrijver, Theory of Linear and Integer Programming, section 23.1). A row that is never true closes the branch.
    Cut {
        /// The parts of the sum.
        parts: Parts,
        /// The divisor.
        divisor: u32,
    },
    /// Closes the branch by an equation whose coefficients a number divides, and whose constant it doesn't divide.
    Gcd {
        /// The parts of the equation.
        parts: Parts,
        /// The number.
        divisor: u32,
    },
    /// Divides the branch into two: in the first an unknown is at most this value, in the second it is more.
    Split {
        /// The number of the unknown, from 1.
        unknown: u32,
        /// The value.
        most: i32,
    },
}
