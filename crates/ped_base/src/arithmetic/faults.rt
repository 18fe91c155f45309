//! The faults that arithmetic has.

ghost use Rattle.std.specs.Prelude.{◌≡◌};
ghost use Rattle.ped_base.specs.Arithmetic.Faults.{fault_number};

use thiserror::Error;

/// What ends a run in an operation on numbers.
#[derive(Clone, Copy, Debug, PartialEq, Eq, Error)]
pub enum Fault {
    /// A division by zero, also in MOD and in a power of zero with a negative exponent.
    #[error("division by zero")]
    DivisionByZero,
    /// A value that isn't from -2^127 to 2^127-1.
    #[error("value out of range")]
    OutOfRange,
}

impl Fault {
    /// The number of the fault among those of a run: 3 for a division by zero, 4 for a value that leaves its
    /// range.
    pub fn number(self) -> u8
        ensures { result ≡ fault_number self }
    {
        match self {
            Fault::DivisionByZero => 3,
            Fault::OutOfRange => 4,
        }
    }
}
