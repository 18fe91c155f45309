//! Names of programs, variables, arrays and constants.

ghost use Rattle.std.specs.Prelude.{◌≡◌, ◌≤◌, IsTrue, length};
ghost use Rattle.std.specs.List.{list_all};
ghost use Rattle.std.specs.Cmp.{partial_equiv_from_equiv};
ghost use Rattle.std.specs.Cmp.Lexicographic.{nat_list_eq_equiv};
ghost use Rattle.ped_base.specs.Letters as Spec;
ghost use Rattle.ped_base.specs.Lists as Lists;

use crate::listing::Listed;
use std::hash::{Hash, Hasher};
use std::marker::Model;

/// A name of 1 to 31 capital letters and digits, a letter first (ANSI X3.9-1978, section 2.2, allows
/// six characters; the room for more is for the profile's longer names). Contracts see its bytes.
#[derive(Clone, Copy)]
pub struct Name {
    len: u8,
    text: [u8; 31],
}

impl Model for Name {
    ghost use Rattle.std.specs.Prelude.{List, ℕ, take};

    ghost Value = { List ℕ };

    ghost use Rattle.ped_base.specs.Names.{IsNameInside, inside, inside_back};

    ghost view = { λ a. take a.len a.text };

    ghost invariant = { IsNameInside };

    ghost inverse = { inside };

    ghost inverse_ok = { inside_back };
}

/// Names are equal where their bytes are. The rest of the 31 bytes isn't looked at, since most names are short.
impl PartialEq for Name {
    ghost eq = { Lists.is_same_text };

    ghost laws = { partial_equiv_from_equiv nat_list_eq_equiv };

    fn eq(&self, other: &Name) -> bool {
        self.as_bytes() == other.as_bytes()
    }
}

impl Eq for Name {
    ghost laws = { nat_list_eq_equiv };
}

/// The bytes go to a hasher at once: a write for each of them would take most of the time that a table of names takes.
impl Hash for Name {
    ghost use Rattle.ped_base.specs.NameHashes.{name_writes, names_hash_alike};

    ghost hash_input = { name_writes };

    ghost respects_eq = { names_hash_alike };

    fn hash<H: Hasher>(&self, state: &mut H) {
        state.write(self.as_bytes());
    }
}

/// Names in an order.
pub type Names = Listed<Name>;

impl Name {
    ghost use Rattle.ped_base.specs.Letters.{is_name, name_of};

    /// The name of these bytes: none exactly where they are no letter with up to 30 letters and digits
    /// after it, all of them capitals.
    pub fn from_bytes(bytes: &[u8]) -> Option<Name>
        ensures { result ≡ name_of bytes.now }
    {
        if bytes.len() > 31 || !is_name(bytes) {
            return None;
        }
        let len = bytes.len();
        let mut text = [0; 31];
        text[..len].copy_from_slice(bytes);
        Some(Name {
            len: len as u8,
            text,
        })
    }

    /// The name's characters.
    pub fn as_bytes(&self) -> &[u8]
        ensures bytes { result.now ≡ self.now }
        ensures name { IsTrue (is_name result.now) }
        ensures short { length result.now ≤ 31 }
    {
        &self.text[..self.len as usize]
    }
}

/// Whether the name is one of these.
pub fn is_among(name: &Name, names: &[Name]) -> bool
    ensures { result ≡ Lists.is_among name.now names.now }
{
    names.contains(name)
}

fn is_name(bytes: &[u8]) -> bool
    ensures { result ≡ Spec.is_name bytes.now }
{
    begins_with_letter(bytes) && all_alphanumeric(bytes)
}

fn begins_with_letter(bytes: &[u8]) -> bool
    ensures { result ≡ Spec.begins_with_letter bytes.now }
{
    match bytes {
        [first, ..] => first.is_ascii_uppercase(),
        [] => false,
    }
}

fn all_alphanumeric(bytes: &[u8]) -> bool
    ensures { result ≡ list_all Spec.is_alphanumeric bytes.now }
{
    bytes.iter().all(|c| is_alphanumeric(*c))
}

fn is_alphanumeric(c: u8) -> bool
    ensures { result ≡ Spec.is_alphanumeric c }
{
    c.is_ascii_uppercase() || c.is_ascii_digit()
}
