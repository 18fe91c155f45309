//! Out of memory: the one error that any allocating call may return.

ghost use Rattle.std.specs.Prelude.{◌≡◌, IfOk, Ok};

use std::alloc::{AllocError, AllocFailed};
use thiserror::Error;

/// There was not enough memory. What the call was to change is as it was, where nothing else is said.
#[derive(Clone, Copy, Debug, PartialEq, Eq, Error)]
#[error("out of memory")]
pub struct NoMemory;

impl From<AllocError> for NoMemory {
    fn from(_: AllocError) -> Self {
        NoMemory
    }
}

impl<T: Drop> From<AllocFailed<T>> for NoMemory {
    fn from(_: AllocFailed<T>) -> Self {
        NoMemory
    }
}

/// Two values, where the second one was made, too. Else the first is dropped, and the answer is the error.
///
/// It is for a large value that is alive when a second one is asked for: `both(first, second)?` lets the first go
/// by one call, where `let second = second?;` writes out all that its type may hold.
pub fn both<A: Drop, B>(first: A, second: Result<B, NoMemory>) -> Result<(A, B), NoMemory>
    ensures first { IfOk result (λ pair. pair.0 ≡ first) }
    ensures second { IfOk result (λ pair. second ≡ Ok pair.1) }
{
    match second {
        Ok(second) => Ok((first, second)),
        Err(error) => Err(error),
    }
}
