//! Names of references among names.

ghost use Rattle.std.specs.Prelude.{◌≡◌};
ghost use Rattle.ped_base.specs.Lists as Lists;
ghost use Rattle.ped_refs.specs.Occurrences.{name_text};

use ped_base::Name;
use ped_refs::RefName;

/// Whether the text of a reference's name is one of these names.
pub fn has_name(names: &[Name], name: &RefName) -> bool
    ensures { result ≡ Lists.is_among (name_text name.now) names.now }
{
    match name {
        RefName::Named(name) => has_text(names, name.as_bytes()),
        RefName::In => has_text(names, b"(IN)"),
        RefName::Out => has_text(names, b"(OUT)"),
    }
}

/// Whether this text is one of these names.
fn has_text(names: &[Name], text: &[u8]) -> bool
    ensures { result ≡ Lists.is_among text.now names.now }
{
    for name in names {
        if text == name.as_bytes() {
            return true;
        }
    }
    false
}
