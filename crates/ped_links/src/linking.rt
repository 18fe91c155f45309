//! The CALLs of a file checked together: rules 20 to 24 (ANSI X3.9-1978, sections 15.6 and 15.9).

ghost use Rattle.std.specs.Prelude.{◌≡◌, ◌↔◌, ◌<◌, List, map, IfOk, IfErr, OnOk, IsTrue, length};
ghost use Rattle.ped_units.specs.ped_valid.specs.ped_symbols.specs.NameRefusals.{has_twice};
ghost use Rattle.ped_units.specs.Units.{ProgramUnit as PlainUnit, ProgramUnits, all_units};
ghost use Rattle.ped_units.specs.Linking as Rules;
ghost use Rattle.ped_links.specs.Links as Spec;
ghost use Rattle.ped_links.specs.LinkPlaces.{HasEarlier, IsBelow, StandsAtLines, StandsAtPlaces};
ghost use Rattle.ped_links.specs.FirstLinks.{IsFirstOf};
ghost use Rattle.ped_links.specs.Numbers.{AreNumbers};
ghost use Rattle.ped_links.specs.Scenes.{IsScene, AreWalked, AtHeads, AtPlaces};
ghost use Rattle.ped_units.specs.Views.{program_unit_of};

use crate::arguments::first_misfit;
use crate::first_links::{first_of_two, standing};
use crate::numbering::{number_of, unit_numbers};
use crate::placing::{Found, PlacedCall, placed_calls};
use crate::recursion::first_recursion;
use crate::scenes::Scene;
use indexmap::IndexMap;
use ped_base::{Name, NoMemory};
use ped_tree::names::NameSet;
use ped_units::{ProgramUnit, Symbols, UnitFinding, UnitRefusal, UnitRule};
use std::alloc::Global;

/// Looks whether the CALLs of units, the main program first, keep the rules 20 to 24, where their names stand for this.
///
/// # Errors
///
/// `At` exactly where one of the rules is broken, with the first by line and then by number; `NoMemory` where memory runs
/// out.
pub fn look_at_calls(
    alloc: Global,
    units: &[ProgramUnit],
    tables: &[Symbols],
) -> Result<(), UnitRefusal>
    requires { length tables.now ≡ length units.now }
    ensures linked { OnOk result ((us : ProgramUnits) → Spec.AreUnitsWith us units.now tables.now → Rules.IsLinked us) }
    ensures refused { IfErr result (λ e. (us : ProgramUnits) → Spec.AreUnitsWith us units.now tables.now → Spec.IsLinkRefusal us e) }
{
    let found = first_link_refusal(alloc, units, tables)?;
    match found {
        Some(finding) => Err(UnitRefusal::At(finding)),
        None => Ok(()),
    }
}

/// The first of the refusals 20 to 24.
fn first_link_refusal(
    alloc: Global,
    units: &[ProgramUnit],
    tables: &[Symbols],
) -> Result<Option<UnitFinding>, NoMemory>
    requires { length tables.now ≡ length units.now }
    ensures { IfOk result (λ found. (us : ProgramUnits) → Spec.AreUnitsWith us units.now tables.now → IsFirstOf (Rules.Stands us) found) }
{
    let numbers = unit_numbers(alloc, units)?;
    let walks = walks(alloc, units)?;
    let scene = Scene {
        units,
        tables,
        numbers: &numbers,
        walks: &walks,
    };
    first_in(alloc, &scene)
}

/// The first of the refusals 20 to 24, by what is known of the units.
fn first_in(alloc: Global, scene: &Scene) -> Result<Option<UnitFinding>, NoMemory>
    ensures { IfOk result (λ found. (us : ProgramUnits) → IsScene us scene.now → Spec.AreNamed us → IsFirstOf (Rules.Stands us) found) }
{
    let at_heads = first_at_heads(alloc, scene)?;
    let at_places = first_at_places(scene);
    let at_recursions = first_recursion(alloc, scene)?;
    let at_arguments = first_misfit(alloc, scene)?;
    let found = first_of_two(at_heads, at_places);
    let found = first_of_two(found, at_recursions);
    Ok(first_of_two(found, at_arguments))
}

/// What a walk over the statements of each unit finds.
fn walks(alloc: Global, units: &[ProgramUnit]) -> Result<Vec<Found>, NoMemory>
    ensures wide { IfOk result (λ walks. length walks.items ≡ length units.now) }
    ensures walked { IfOk result (λ walks. AreWalked (map program_unit_of units.now) walks.items) }
{
    let mut walks = Vec::new(alloc);
    for unit in units {
        walks.push(placed_calls(alloc, unit)?)?;
    }
    Ok(walks)
}

/// The first of what is refused at SUBROUTINE statements: names of units and dummy arguments that occur twice.
fn first_at_heads(alloc: Global, scene: &Scene) -> Result<Option<UnitFinding>, NoMemory>
    ensures { IfOk result (λ found. (us : ProgramUnits) → IsScene us scene.now → Spec.AreNamed us → IsFirstOf (AtHeads us) found) }
{
    let mut found = None;
    for number in 0..scene.units.len() {
        let unit = &scene.units[number];
        let repeats = is_repeated(unit, number, scene.numbers);
        found = standing(found, repeats, UnitRule::NoUnit, unit.line);
        let twice = stands_twice(alloc, unit.formals.as_slice())?;
        found = standing(found, twice, UnitRule::Arguments, unit.line);
    }
    Ok(found)
}

/// Whether a unit with this number has the name of one before it.
fn is_repeated(unit: &ProgramUnit, number: usize, numbers: &IndexMap<Name, usize>) -> bool
    ensures { (us : List PlainUnit) → AreNumbers us numbers.now.entries → IsTrue result ↔ HasEarlier us unit.now.name number }
{
    match &unit.name {
        Some(name) => is_below(number_of(numbers, name), number),
        None => false,
    }
}

/// Whether there is a number, and it is below this.
fn is_below(first: Option<usize>, number: usize) -> bool
    ensures { IsTrue result ↔ IsBelow first number }
{
    match first {
        Some(first) => first < number,
        None => false,
    }
}

/// Whether a name occurs twice among these.
fn stands_twice(alloc: Global, names: &[Name]) -> Result<bool, NoMemory>
    ensures { IfOk result (λ twice. twice ≡ has_twice names.now) }
{
    let mut seen = NameSet::new(alloc);
    for name in names {
        if seen.contains(name) {
            return Ok(true);
        }
        seen.insert(name)?;
    }
    Ok(false)
}

/// The first of what is refused at CALLs and at PRIVATE statements without a look at the units that are called.
fn first_at_places(scene: &Scene) -> Option<UnitFinding>
    ensures { (us : ProgramUnits) → IsScene us scene.now → IsFirstOf (AtPlaces us) result }
{
    let mut found = None;
    for walk in scene.walks {
        found = first_of_two(found, at_private(&walk.private));
        found = first_of_two(found, at_calls(scene, &walk.calls));
    }
    found
}

/// The first of the lines at which PRIVATE names dummy arguments.
fn at_private(lines: &[u64]) -> Option<UnitFinding>
    ensures { IsFirstOf (StandsAtLines lines.now) result }
{
    let mut found = None;
    for line in lines {
        found = standing(found, true, UnitRule::Arguments, *line);
    }
    found
}

/// The first of these CALLs that names no unit, or is in a PARALLEL DO.
fn at_calls(scene: &Scene, calls: &[PlacedCall]) -> Option<UnitFinding>
    ensures { (us : ProgramUnits) → IsScene us scene.now → IsFirstOf (StandsAtPlaces (all_units us) calls.now) result }
{
    let mut found = None;
    for call in calls {
        let calls_none = scene.callee(&call.name).is_none();
        found = standing(found, calls_none, UnitRule::NoUnit, call.line);
        found = standing(found, call.around.parallel, UnitRule::CallPlace, call.line);
    }
    found
}
