//! Names that the profile allows, and names among others.

ghost use Rattle.std.specs.Prelude.{◌≡◌};
ghost use Rattle.std.specs.List.{list_all};
ghost use Rattle.ped_tree.specs.Grammar.Words as Words;
ghost use Rattle.ped_tree.specs.Grammar.StatementForms as Spec;
ghost use Rattle.ped_tree.specs.Grammar.ProgramRefusals as Refusals;

use ped_base::{Name, is_among};
use ped_limits::MOST_NAME;

/// Whether a name has at most as many characters as the profile allows; a `Name` holds no more.
pub fn name_fits(name: &Name) -> bool
    ensures { result ≡ Words.is_name name.now }
{
    name.as_bytes().len() <= MOST_NAME
}

/// Whether all names fit.
pub fn all_names_fit(names: &[Name]) -> bool
    ensures { result ≡ list_all Words.is_name names.now }
{
    for name in names {
        if !name_fits(name) {
            return false;
        }
    }
    true
}

/// Whether there are names, and all fit.
pub fn are_names(names: &[Name]) -> bool
    ensures { result ≡ Spec.are_names names.now }
{
    !names.is_empty() && all_names_fit(names)
}

/// Whether one of the names is among the others.
pub fn meets(names: &[Name], others: &[Name]) -> bool
    ensures { result ≡ Refusals.meets names.now others.now }
{
    for name in names {
        if is_among(name, others) {
            return true;
        }
    }
    false
}
