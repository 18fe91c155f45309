//! Lists of names (ANSI X3.9-1978, section 2.2), and the ends of texts.

ghost use Rattle.std.specs.Prelude.{◌≡◌, Some, None, if◌then◌else◌};
ghost use Rattle.ped_statements.specs.Listing as Listing;
ghost use Rattle.ped_statements.specs.Listing.{whole, several};
ghost use Rattle.ped_statements.specs.StatementReading.{name_at};
ghost use Rattle.ped_expressions.specs.Views.{Gives};

use ped_base::Names;
use ped_expressions::{Failure, after, name_of, split_word};
use std::alloc::Global;

/// The names with a comma between two that the whole text is.
pub fn names(alloc: Global, text: &[u8]) -> Result<Names, Failure>
    ensures { Gives (λ names. names) result (whole (several name_at text.now)) }
{
    let mut names = Names::new(alloc);
    let mut left = text;
    loop {
        let (word, rest) = split_word(left);
        let Some(next) = name_of(word) else {
            return Err(Failure::NoForm);
        };
        names.push(next)?;
        match after(rest, b",") {
            Some(behind) => left = behind,
            None => return at_end(names, rest),
        }
    }
}

/// What was read, where nothing follows it.
pub fn at_end<T: Drop>(read: T, rest: &[u8]) -> Result<T, Failure>
    ensures { Gives (λ x. x) result (if Listing.is_end rest.now then Some read else None) }
{
    if is_end(rest) {
        Ok(read)
    } else {
        Err(Failure::NoForm)
    }
}

/// Whether the text is at its end.
pub fn is_end(text: &[u8]) -> bool
    ensures { result ≡ Listing.is_end text.now }
{
    match text {
        [] => true,
        _ => false,
    }
}
