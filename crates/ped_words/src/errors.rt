//! Why words make no request.

ghost use Rattle.std.specs.Prelude.{◌≡◌};

use clap::error::ErrorKind;
use std::alloc::AllocError;
use thiserror::Error;

/// Why words ask for nothing.
#[derive(Clone, Copy, Debug, PartialEq, Eq, Error)]
pub enum WordsError {
    /// There is no word, the first is no mode, or the mode's command doesn't take the words after it.
    #[error("the words are not of the form")]
    Bad,
    /// There was not enough memory.
    #[error("out of memory")]
    NoMemory,
}

impl From<AllocError> for WordsError {
    ghost use Rattle.ped_words.specs.declared.errors.WordsError.TheVariants.{NoMemory};

    ghost from_gives = { λ _ e. e ≡ NoMemory };

    fn from(_: AllocError) -> Self {
        WordsError::NoMemory
    }
}

impl From<clap::Error> for WordsError {
    ghost use Rattle.ped_words.specs.Parses.{IsErrorOf};

    ghost from_gives = { IsErrorOf };

    fn from(error: clap::Error) -> Self {
        match error.kind() {
            ErrorKind::OutOfMemory => WordsError::NoMemory,
            _ => WordsError::Bad,
        }
    }
}
