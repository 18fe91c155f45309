//! Bounds of arrays.

use std::marker::Model;

/// The bounds of an array of at most seven dimensions (ANSI X3.9-1978, section 5.1.1), dimension by
/// dimension; the places at or past `rank` hold 0.
#[derive(Clone, Copy, PartialEq, Eq)]
pub struct Bounds {
    /// The number of dimensions, 0 for a scalar.
    pub rank: u8,
    /// The lower bounds.
    pub lower: [i64; 7],
    /// The upper bounds.
    pub upper: [i64; 7],
}

impl Model for Bounds {
    ghost use Rattle.ped_base.specs.Dimensions.{Dimensions};

    ghost Value = { Dimensions };

    ghost use Rattle.ped_base.specs.Dimensions.{IsBounds, dimensions, bounds, bounds_back};

    ghost view = { dimensions };

    ghost invariant = { IsBounds };

    ghost inverse = { bounds };

    ghost inverse_ok = { bounds_back };
}
