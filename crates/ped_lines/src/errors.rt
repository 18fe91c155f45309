//! Why a text has no statements.

ghost use Rattle.std.specs.Prelude.{◌≡◌};
ghost use Rattle.ped_lines.specs.declared.errors.LinesError.TheVariants.{NoMemory};

use ped_tree::grammar::Refusal;
use std::alloc::AllocError;
use thiserror::Error;

/// Why a text has no statements.
#[derive(Clone, Copy, Debug, PartialEq, Eq, Error)]
pub enum LinesError {
    /// There was not enough memory.
    #[error("out of memory")]
    NoMemory,
    /// A line breaks a rule of fixed form; the first refusal is the one with the least line, and of
    /// these the one with the least number.
    #[error("a line breaks a rule of fixed form")]
    Refused(Refusal),
}

impl From<AllocError> for LinesError {
    ghost from_gives = { λ _ e. e ≡ NoMemory };

    fn from(_: AllocError) -> Self {
        LinesError::NoMemory
    }
}

impl From<ped_base::NoMemory> for LinesError {
    ghost from_gives = { λ _ e. e ≡ NoMemory };

    fn from(_: ped_base::NoMemory) -> Self {
        LinesError::NoMemory
    }
}
