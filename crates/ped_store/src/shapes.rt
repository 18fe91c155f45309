//! The scalars and arrays of a program.

use ped_base::{Bounds, Listed, Name};

/// A scalar or an array with its bounds, of rank 0 for a scalar (ANSI X3.9-1978, section 5.1).
#[derive(Clone, Copy, PartialEq, Eq)]
pub struct Shape {
    /// Its name.
    pub name: Name,
    /// The bounds of its dimensions.
    pub bounds: Bounds,
}

/// The scalars and arrays of a program.
pub type Shapes = Listed<Shape>;
