//! The references of a program, without their surroundings, in a list that is short enough to be kept by itself.

ghost use Rattle.std.specs.Prelude.{◌≡◌, ◌^◌, ◌<◌, map, length, IfOk};
ghost use Rattle.ped_tree.specs.Numbering.{statements_count};
ghost use Rattle.ped_tree.specs.Views.{program_tree};
ghost use Rattle.ped_refs.specs.References.{references, outermost};
ghost use Rattle.ped_refs.specs.ListedReferences.{ref_of, AreReferences};
ghost use Rattle.ped_refs.specs.Occurrences.{reference_of, references_of};

use crate::counting::count_pairs;
use crate::occurring::{Occurrence, occurrences};
use crate::references::{Ref, Refs};
use ped_base::{Listed, NoMemory};
use ped_tree::Program;
use std::alloc::Global;

/// The references of a program, in text order. Each has its statement, its number there, its name, whether it writes,
/// and the number of the outermost DO around it. Their pairs are counted.
pub fn refs(alloc: Global, program: &Program) -> Result<Refs, NoMemory>
    requires statements { statements_count (program_tree program.now).body < 2 ^ 32 }
    requires references { length (references (program_tree program.now)) < 2 ^ 32 }
    ensures { IfOk result (AreReferences (program_tree program.now)) }
{
    let found = occurrences(alloc, program)?;
    let mut refs = in_list(alloc, &found)?;
    refs.pairs = count_pairs(alloc, &refs)?;
    Ok(refs)
}

/// The references without what is around them, whose pairs aren't counted yet.
fn in_list(alloc: Global, found: &[Occurrence]) -> Result<Refs, NoMemory>
    ensures items { IfOk result (λ refs. refs.items ≡ map ref_of (references_of found.now)) }
    ensures outer { IfOk result (λ refs. refs.outer ≡ map outermost (references_of found.now)) }
{
    let mut refs = Refs {
        items: Listed::new(alloc),
        outer: Listed::new(alloc),
        pairs: 0,
    };
    for occurrence in found {
        refs.items.push(without_surroundings(occurrence))?;
        refs.outer.push(outermost_number(occurrence))?;
    }
    Ok(refs)
}

/// The reference without what is around it.
fn without_surroundings(occurrence: &Occurrence) -> Ref
    ensures { result ≡ ref_of (reference_of occurrence.now) }
{
    Ref {
        statement: occurrence.statement,
        number: occurrence.number,
        name: occurrence.name.by_text(),
        writes: occurrence.writes,
    }
}

/// The statement number of the outermost DO loop around the reference, 0 where there is none.
fn outermost_number(occurrence: &Occurrence) -> u32
    ensures { result ≡ outermost (reference_of occurrence.now) }
{
    match occurrence.nest.first() {
        Some(outer) => outer.number,
        None => 0,
    }
}
