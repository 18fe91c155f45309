//! Names of variables.

ghost use Rattle.std.specs.Prelude.{◌≡◌};
ghost use Rattle.ped_base.specs.Lists.{is_same_text};

use ped_base::Name;

/// Whether two names are the same.
pub(crate) fn is_same(a: &Name, b: &Name) -> bool
    ensures { result ≡ is_same_text a.now b.now }
{
    a == b
}
