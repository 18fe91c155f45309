//! References to names in the body of a DO, and those of them that are in no sum.

ghost use Rattle.std.specs.Prelude.{◌≡◌, ◌+◌, ◌<◌, ◌^◌, ◌&&◌, nat_lt, is_none, is_some};
ghost use Rattle.std.specs.List.{list_any};
ghost use Rattle.ped_base.specs.Lists as Lists;
ghost use Rattle.ped_tree.specs.Views.{program_tree};
ghost use Rattle.ped_rules.specs.Scalars.{is_reference_in};
ghost use Rattle.ped_refs.specs.References.{references};
ghost use Rattle.ped_refs.specs.Occurrences.{name_text, reference_of, references_of};
ghost use Rattle.ped_reduce.specs.Reducing as Spec;

use crate::sums::sum_to;
use ped_base::Name;
use ped_refs::{Occurrence, RefName};
use ped_tree::Program;

/// A DO by its number and by how many statements it has, with itself.
#[derive(Clone, Copy)]
pub(crate) struct Extent {
    /// Its number.
    pub(crate) number: u32,
    /// How many statements it has.
    pub(crate) count: u32,
}

/// Whether one of these references refers to the name in the body of the DO.
pub(crate) fn is_referred(found: &[Occurrence], extent: Extent, name: &Name) -> bool
    requires { extent.number + extent.count < 2 ^ 32 }
    ensures { result ≡ list_any (is_reference_in extent.number extent.count name.now) (references_of found.now) }
{
    for occurrence in found {
        if is_in(occurrence, extent) && is_named(&occurrence.name, name) {
            return true;
        }
    }
    false
}

/// Whether a reference is in the body of the DO.
fn is_in(occurrence: &Occurrence, extent: Extent) -> bool
    requires { extent.number + extent.count < 2 ^ 32 }
    ensures { result ≡ (nat_lt extent.number (reference_of occurrence.now).statement && nat_lt (reference_of occurrence.now).statement (extent.number + extent.count)) }
{
    extent.number < occurrence.statement && occurrence.statement < extent.number + extent.count
}

/// Whether what a reference refers to is this name. The data and the output are none.
pub(crate) fn is_named(other: &RefName, name: &Name) -> bool
    ensures named { result ≡ Lists.is_same_text name.now (name_text other.now) }
    ensures names { result ≡ Lists.is_same_text (name_text other.now) name.now }
{
    match other {
        RefName::Named(other) => name.as_bytes() == other.as_bytes(),
        RefName::In => name.as_bytes() == b"(IN)".as_slice(),
        RefName::Out => name.as_bytes() == b"(OUT)".as_slice(),
    }
}

/// The first statement in the body of the DO that refers to one of these names and is no sum of it, where these are all
/// references of the program.
pub(crate) fn first_beside_sums(
    program: &Program,
    found: &[Occurrence],
    extent: Extent,
    names: &[Name],
) -> Option<u32>
    requires small { extent.number + extent.count < 2 ^ 32 }
    requires all { references_of found.now ≡ references (program_tree program.now) }
    ensures { result ≡ Spec.first_beside_sums (program_tree program.now) extent.number extent.count names.now }
{
    for occurrence in found {
        if is_in(occurrence, extent) && is_beside_sums(program, occurrence, names) {
            return Some(occurrence.statement);
        }
    }
    None
}

/// Whether a reference refers to one of these names and its statement is no sum of that name.
fn is_beside_sums(program: &Program, occurrence: &Occurrence, names: &[Name]) -> bool
    ensures { result ≡ (Lists.is_among (reference_of occurrence.now).access.name names.now && is_none (Spec.sum_at (program_tree program.now) (reference_of occurrence.now).access.name (reference_of occurrence.now).statement)) }
{
    for name in names {
        if is_named(&occurrence.name, name) {
            return !is_sum(program, occurrence.statement, name);
        }
    }
    false
}

/// Whether the statement with this number is a sum of the scalar.
fn is_sum(program: &Program, number: u32, name: &Name) -> bool
    ensures { result ≡ is_some (Spec.sum_at (program_tree program.now) name.now number) }
{
    match program.at(number) {
        Some(statement) => sum_to(name, statement).is_some(),
        None => false,
    }
}
