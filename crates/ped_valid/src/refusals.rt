//! Why a text isn't a valid program.

ghost use Rattle.std.specs.Prelude.{◌≡◌};
ghost use Rattle.ped_valid.specs.Refusals.{of_reading, of_names};

use ped_parse::ReadRefusal;
use ped_symbols::NameRefusal;
use ped_tree::grammar::Refusal;
use thiserror::Error;

/// Why a text is no valid program.
#[derive(Clone, Copy, Debug, PartialEq, Eq, Error)]
pub enum OpenRefusal {
    /// The first of the text's refusals.
    #[error("the text is refused")]
    At(Refusal),
    /// Memory ran out.
    #[error("out of memory")]
    NoMemory,
}

impl From<ReadRefusal> for OpenRefusal {
    ghost from_gives = { λ r e. e ≡ of_reading r };

    fn from(refusal: ReadRefusal) -> OpenRefusal {
        match refusal {
            ReadRefusal::At(refusal) => OpenRefusal::At(refusal),
            ReadRefusal::NoMemory => OpenRefusal::NoMemory,
        }
    }
}

impl From<NameRefusal> for OpenRefusal {
    ghost from_gives = { λ r e. e ≡ of_names r };

    fn from(refusal: NameRefusal) -> OpenRefusal {
        match refusal {
            NameRefusal::At(refusal) => OpenRefusal::At(refusal),
            NameRefusal::NoMemory => OpenRefusal::NoMemory,
        }
    }
}
