//! Whether names are the same, told by their first characters where they can tell.

ghost use Rattle.std.specs.Prelude.{◌≡◌};
ghost use Rattle.ped_base.specs.Lists.{is_same_text};

use ped_base::Name;

/// Whether two names are the same. Most names that differ do so in the first character, and many have one alone, so most
/// answers need no comparison of texts.
#[inline(always)]
pub fn is_same_name(a: &Name, b: &Name) -> bool
    ensures { result ≡ is_same_text a.now b.now }
{
    let Some((first, more)) = a.as_bytes().split_first() else {
        return *a == *b;
    };
    let Some((other, others)) = b.as_bytes().split_first() else {
        return *a == *b;
    };
    if *first != *other {
        return false;
    }
    if more.is_empty() && others.is_empty() {
        return true;
    }
    is_same_by_text(a, b)
}

/// Whether two names are the same, by all their characters.
#[inline(never)]
fn is_same_by_text(a: &Name, b: &Name) -> bool
    ensures { result ≡ is_same_text a.now b.now }
{
    *a == *b
}
