//! Numbers by names: of the units of a file, and of dummy arguments in their list.

ghost use Rattle.std.specs.Prelude.{◌≡◌, ◌↔◌, ◌<◌, ℕ, List, map, IfOk, IfSome, OnOk, IsTrue};
ghost use Rattle.ped_units.specs.ped_valid.specs.ped_symbols.specs.Entries.{with_entry};
ghost use Rattle.ped_units.specs.Units.{ProgramUnit as PlainUnit};
ghost use Rattle.ped_links.specs.Numbers as Spec;
ghost use Rattle.ped_links.specs.Reaching.{IsMarkedNumber};
ghost use Rattle.ped_units.specs.Views.{program_unit_of};

use indexmap::IndexMap;
use ped_base::{Name, NoMemory};
use ped_units::ProgramUnit;
use std::alloc::Global;

/// The number of the first subroutine of each name. The main program comes first, and has none.
pub fn unit_numbers(alloc: Global, units: &[ProgramUnit]) -> Result<IndexMap<Name, usize>, NoMemory>
    ensures { IfOk result (λ numbers. Spec.AreNumbers (map program_unit_of units.now) numbers.entries) }
{
    let mut numbers = IndexMap::new(alloc);
    for number in 1..units.len() {
        keep_unit(&mut numbers, &units[number], number)?;
    }
    Ok(numbers)
}

/// Keeps the number of a unit under its name, where it has none.
fn keep_unit(
    numbers: &mut IndexMap<Name, usize>,
    unit: &ProgramUnit,
    number: usize,
) -> Result<(), NoMemory>
    ensures { OnOk result (numbers.new.entries ≡ Spec.with_number numbers.old.entries unit.now.name number) }
{
    match &unit.name {
        Some(name) => keep(numbers, name, number),
        None => Ok(()),
    }
}

/// Keeps a number under a name, where it has none.
fn keep(numbers: &mut IndexMap<Name, usize>, name: &Name, number: usize) -> Result<(), NoMemory>
    ensures { OnOk result (numbers.new.entries ≡ with_entry numbers.old.entries name.now number) }
{
    if numbers.contains_key(name) {
        return Ok(());
    }
    numbers.insert(*name, number)?;
    Ok(())
}

/// The number of the first subroutine of a name.
pub fn number_of(numbers: &IndexMap<Name, usize>, name: &Name) -> Option<usize>
    ensures { (us : List PlainUnit) → Spec.AreNumbers us numbers.now.entries → result ≡ Spec.number_of_unit us name.now }
{
    let _letters = name.as_bytes();
    numbers.get(name).copied()
}

/// The place of each name in a list, the first where it occurs there twice.
pub fn places(alloc: Global, names: &[Name]) -> Result<IndexMap<Name, usize>, NoMemory>
    ensures { IfOk result (λ places. Spec.ArePlaces names.now places.entries) }
{
    let mut places = IndexMap::new(alloc);
    for place in 0..names.len() {
        keep(&mut places, &names[place], place)?;
    }
    Ok(places)
}

/// The place of a name.
pub fn place_of(places: &IndexMap<Name, usize>, name: &Name) -> Option<usize>
    ensures { (names : List (List ℕ)) → Spec.ArePlaces names places.now.entries → result ≡ Spec.place_among names 0 name.now }
{
    places.get(name).copied()
}

/// Whether there is a number, and it is marked.
pub fn is_marked(number: Option<usize>, marks: &[bool]) -> bool
    ensures { IsTrue result ↔ IsMarkedNumber marks.now number }
{
    match number {
        Some(number) if number < marks.len() => marks[number],
        _ => false,
    }
}

/// A number where it is below a bound, which such numbers are.
pub fn below(number: Option<usize>, bound: usize) -> Option<usize>
    ensures below { IfSome result (λ n. n < bound) }
    ensures same { IfSome number (λ n. n < bound) → result ≡ number }
{
    match number {
        Some(n) if n < bound => Some(n),
        Some(_) | None => None,
    }
}
