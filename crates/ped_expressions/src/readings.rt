//! What a text is read as, and why a part of it can't be read.

ghost use Rattle.std.specs.Prelude.{◌≡◌};
ghost use Rattle.ped_expressions.specs.declared.readings.Failure.TheVariants.{OutOfMemory};

use ped_base::NoMemory;
use std::alloc::AllocFailed;

/// What a text is read as.
#[derive(PartialEq, Eq, Drop)]
pub enum Reading<T> {
    /// The text has this tree.
    Tree(T),
    /// The text has a form, and a literal above 2147483647 is in it.
    TooLarge,
    /// The text has no form.
    NoForm,
}

/// Why nothing is read at the front of a text.
#[derive(Clone, Copy, PartialEq, Eq)]
pub enum Failure {
    /// No form begins there, or it goes on in no way.
    NoForm,
    /// Memory ran out.
    OutOfMemory,
}

impl From<NoMemory> for Failure {
    ghost from_gives = { λ _ e. e ≡ OutOfMemory };

    fn from(_: NoMemory) -> Failure {
        Failure::OutOfMemory
    }
}

impl<T: Drop> From<AllocFailed<T>> for Failure {
    ghost from_gives = { λ _ e. e ≡ OutOfMemory };

    fn from(_: AllocFailed<T>) -> Failure {
        Failure::OutOfMemory
    }
}
