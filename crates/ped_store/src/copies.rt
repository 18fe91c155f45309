//! Private copies of scalars.

use crate::iterations::Iterations;
use ped_base::Name;

/// The private copy of a scalar (ParaScope).
#[derive(Clone, Copy, PartialEq, Eq, Hash)]
pub struct PrivateCopy {
    /// The scalar.
    pub name: Name,
    /// The iteration that the copy belongs to, after those around it.
    pub iterations: Iterations,
}
