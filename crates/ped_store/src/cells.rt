//! Cells, of a fixed size.

use crate::copies::PrivateCopy;
use ped_base::Name;

/// A cell of a store. It has room for seven subscripts and for six DO loops, so making one takes no memory.
#[derive(Clone, Copy, PartialEq, Eq)]
pub enum Cell {
    /// A scalar.
    Scalar(Name),
    /// An element of an array; the places of `subscripts` at or past `rank` hold 0.
    Element {
        /// The array.
        name: Name,
        /// How many subscripts it has, 1 to 7.
        rank: u8,
        /// The subscripts.
        subscripts: [i128; 7],
    },
    /// The copy of a scalar that belongs to one iteration of a DO loop.
    Private(PrivateCopy),
    /// The data.
    In,
    /// The output.
    Out,
}
