//! Groups of references that can pair with each other.

ghost use Rattle.std.specs.Prelude.{◌≡◌};
ghost use Rattle.ped_refs.specs.Occurrences.{reference_of};
ghost use Rattle.ped_refs.specs.Groups.{looped_group};

use crate::occurring::Occurrence;
use crate::references::RefName;

/// What references have in common that can pair with each other.
#[derive(Clone, Copy, PartialEq, Eq, Hash)]
pub struct Group {
    /// What they read or write.
    pub name: RefName,
    /// The statement number of the outermost DO around them.
    pub outer: u32,
}

/// The group of a reference, none outside all DO loops.
pub fn group_of(occurrence: &Occurrence) -> Option<Group>
    ensures { result ≡ looped_group (reference_of occurrence.now) }
{
    match occurrence.nest.first() {
        Some(outer) => Some(Group {
            name: occurrence.name.by_text(),
            outer: outer.number,
        }),
        None => None,
    }
}
