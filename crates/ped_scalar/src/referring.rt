//! References to a name in the body of a DO.

ghost use Rattle.std.specs.Prelude.{◌≡◌, ◌+◌, ◌<◌, ◌^◌, length, IfOk};
ghost use Rattle.std.specs.List.{list_any};
ghost use Rattle.ped_base.specs.Lists as Lists;
ghost use Rattle.ped_tree.specs.Views.{stmt_trees, program_tree};
ghost use Rattle.ped_tree.specs.Numbering.{statements_count};
ghost use Rattle.ped_refs.specs.References.{references};
ghost use Rattle.ped_refs.specs.Occurrences.{name_text, reference_of, references_of};
ghost use Rattle.ped_rules.specs.Scalars as Spec;

use ped_base::{Name, NoMemory};
use ped_refs::{Occurrence, RefName, occurrences};
use ped_tree::{Do, Program, count_statements};
use std::alloc::Global;

/// Whether a reference in the body of the DO with this number refers to the name.
pub(crate) fn is_referred(
    alloc: Global,
    program: &Program,
    number: u32,
    d: &Do,
    name: &Name,
) -> Result<bool, NoMemory>
    requires statements { statements_count (program_tree program.now).body < 2 ^ 32 }
    requires references { length (references (program_tree program.now)) < 2 ^ 32 }
    requires inside { number + statements_count (stmt_trees d.now.body.items) + 1 < 2 ^ 32 }
    ensures { IfOk result (λ r. r ≡ Spec.is_referred (program_tree program.now) number (stmt_trees d.now.body.items) name.now) }
{
    let found = occurrences(alloc, program)?;
    let extent = count_statements(&d.body) + 1;
    Ok(is_some_in(&found, number, extent, name))
}

/// Whether one of these references refers to the name and is in the body of the DO with this number and this many
/// statements.
fn is_some_in(found: &[Occurrence], number: u32, extent: u32, name: &Name) -> bool
    requires { number + extent < 2 ^ 32 }
    ensures { result ≡ list_any (Spec.is_reference_in number extent name.now) (references_of found.now) }
{
    for occurrence in found {
        if is_in(occurrence, number, extent, name) {
            return true;
        }
    }
    false
}

/// Whether a reference refers to the name and is in the body of the DO with this number and this many statements.
fn is_in(occurrence: &Occurrence, number: u32, extent: u32, name: &Name) -> bool
    requires { number + extent < 2 ^ 32 }
    ensures { result ≡ Spec.is_reference_in number extent name.now (reference_of occurrence.now) }
{
    number < occurrence.statement
        && occurrence.statement < number + extent
        && is_named(&occurrence.name, name)
}

/// Whether the text of a reference's name is this name.
fn is_named(other: &RefName, name: &Name) -> bool
    ensures { result ≡ Lists.is_same_text name.now (name_text other.now) }
{
    match other {
        RefName::Named(other) => name.as_bytes() == other.as_bytes(),
        RefName::In => name.as_bytes() == b"(IN)".as_slice(),
        RefName::Out => name.as_bytes() == b"(OUT)".as_slice(),
    }
}
