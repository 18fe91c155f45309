//! What is known of each reference by itself. So it is found once for each reference, not once for each pair.

ghost use Rattle.std.specs.Prelude.{◌≡◌, ◌≤◌, map, length, All, IfOk};
ghost use Rattle.ped_tree.specs.Views.{program_tree};
ghost use Rattle.ped_refs.specs.Occurrences.{reference_of};
ghost use Rattle.ped_graph.specs.Guards as Guards;
ghost use Rattle.ped_graph.specs.KnownProgram.{own_of};

use crate::firmness::is_firm;
use crate::guards::guards;
use crate::owners::{owner_number, private_level};
use crate::rejections::rejecting_places;
use ped_base::NoMemory;
use ped_refs::Occurrence;
use ped_tree::Program;
use ped_tree::constants::Consts;
use std::alloc::Global;

/// What is known of a reference by itself.
#[derive(Clone, Copy)]
pub struct OwnFacts {
    /// Whether constants alone decide that it is reached.
    pub firm: bool,
    /// The statement number of the DO whose private copies it means, none where it means none.
    pub owner: Option<u32>,
    /// The level of this DO, 0 where there is none.
    pub level: u8,
    /// For each of six places, from the outermost loop on, whether the loop there rejects its variable.
    pub rejecting: [bool; 6],
}

/// What is known of these references of a program, each by itself.
pub fn all_own_facts(
    alloc: Global,
    program: &Program,
    consts: &Consts,
    found: &[Occurrence],
) -> Result<Vec<OwnFacts>, NoMemory>
    requires { All (λ o. length o.nest.items ≤ 6) found.now }
    ensures { IfOk result (λ own. own.items ≡ map (λ o. own_of consts.now (Guards.guards (program_tree program.now)) (reference_of o)) found.now) }
{
    let guards = guards(alloc, &program.body)?;
    own_facts_of_all(alloc, consts, &guards, found)
}

/// What is known of these references by themselves, where these statements are in an IF.
fn own_facts_of_all(
    alloc: Global,
    consts: &Consts,
    guards: &[bool],
    found: &[Occurrence],
) -> Result<Vec<OwnFacts>, NoMemory>
    requires { All (λ o. length o.nest.items ≤ 6) found.now }
    ensures { IfOk result (λ own. own.items ≡ map (λ o. own_of consts.now guards.now (reference_of o)) found.now) }
{
    let mut own = Vec::new(alloc);
    for occurrence in found {
        own.push(own_facts(consts, guards, occurrence))?;
    }
    Ok(own)
}

/// What is known of a reference by itself.
fn own_facts(consts: &Consts, guards: &[bool], occurrence: &Occurrence) -> OwnFacts
    requires { length occurrence.now.nest.items ≤ 6 }
    ensures { result ≡ own_of consts.now guards.now (reference_of occurrence.now) }
{
    let nest = occurrence.nest.as_slice();
    OwnFacts {
        firm: is_firm(consts, guards, occurrence),
        owner: owner_number(nest, &occurrence.name),
        level: private_level(nest, &occurrence.name),
        rejecting: rejecting_places(nest, &occurrence.name),
    }
}
