//! Dummy arguments by number, and which are assigned or DO variables, in their units or where they are passed on.

ghost use Rattle.std.specs.Prelude.{◌≡◌, ◌↔◌, ◌⊎◌, ◌<◌, ◌≤◌, ◌+◌, ◌++◌, ◌∷◌, [], ℕ, List, Some, map, IfOk, IfSome, OnOk, IsTrue, length};
ghost use Rattle.ped_base.specs.Lists as Lists;
ghost use Rattle.ped_units.specs.Units.{ProgramUnit as PlainUnit, ProgramUnits, all_units};
ghost use Rattle.ped_units.specs.Linking as Rules;
ghost use Rattle.ped_links.specs.Arguments as Spec;
ghost use Rattle.ped_links.specs.Arguments.{AreFormals, AreUses};
ghost use Rattle.ped_links.specs.ArrowViews.{ends_of};
ghost use Rattle.ped_links.specs.Reaching.{Leads, AreBelow};
ghost use Rattle.ped_links.specs.Scenes.{IsScene, unit_at};
ghost use Rattle.ped_units.specs.Views.{program_unit_of};

use crate::arrows::add_arrow;
use crate::assigning::{assigned, indexes};
use crate::numbering::{is_marked, place_of, places};
use crate::placing::PlacedCall;
use crate::reaching::Arrows;
use crate::scenes::Scene;
use indexmap::IndexMap;
use ped_base::{Name, NoMemory};
use ped_tree::names::NameSet;
use ped_units::ProgramUnit;
use std::alloc::Global;

/// Numbers of the dummy arguments of all units.
#[derive(Drop)]
pub struct Formals {
    /// For each unit the number of its first dummy argument.
    bases: Vec<usize>,
    /// For each unit the place of each name among its dummy arguments, the first where it occurs twice.
    places: Vec<IndexMap<Name, usize>>,
    /// How many there are.
    count: usize,
}

impl Formals {
    /// The numbers of the dummy arguments of these units.
    fn new(alloc: Global, units: &[ProgramUnit]) -> Result<Formals, NoMemory>
        ensures { IfOk result (AreFormals (map program_unit_of units.now)) }
    {
        let mut formals = Formals {
            bases: Vec::new(alloc),
            places: Vec::new(alloc),
            count: 0,
        };
        for unit in units {
            formals.add(alloc, unit.formals.as_slice())?;
        }
        Ok(formals)
    }

    /// Adds the dummy arguments of one more unit.
    fn add(&mut self, alloc: Global, names: &[Name]) -> Result<(), NoMemory>
        ensures { OnOk result ((us : List PlainUnit) (u : PlainUnit) → u.formals ≡ names.now → AreFormals us self.old → AreFormals (us ++ u ∷ []) self.new) }
    {
        let Some(count) = self.count.checked_add(names.len()) else {
            return Err(NoMemory);
        };
        let places = places(alloc, names)?;
        self.places.push(places)?;
        self.bases.push(self.count)?;
        self.count = count;
        Ok(())
    }

    /// The number of a dummy argument of a unit, where the name is one.
    fn number(&self, unit: usize, name: &Name) -> Option<usize>
        ensures below { IfSome result (λ n. n < self.now.count) }
        ensures number { (us : List PlainUnit) → AreFormals us self.now → unit < length us → result ≡ Spec.formal_number us unit name.now }
    {
        if unit >= self.bases.len() {
            return None;
        }
        if unit >= self.places.len() {
            return None;
        }
        match place_of(&self.places[unit], name) {
            Some(place) => sum_below(self.bases[unit], place, self.count),
            None => None,
        }
    }

    /// The number of the dummy argument of a unit that an argument is, where it is one.
    fn passed_number(&self, unit: usize, argument: &Option<Name>) -> Option<usize>
        ensures below { IfSome result (λ n. n < self.now.count) }
        ensures number { (us : List PlainUnit) → AreFormals us self.now → unit < length us → result ≡ Spec.passed_number us unit argument.now }
    {
        match argument {
            Some(name) => self.number(unit, name),
            None => None,
        }
    }
}

/// Which dummy arguments are assigned, and which are DO variables, in their units or in those that they are passed to.
#[derive(Drop)]
pub struct Marks {
    formals: Formals,
    assigned: Vec<bool>,
    indexes: Vec<bool>,
}

impl Marks {
    /// The marks of the dummy arguments of a file.
    pub fn new(alloc: Global, scene: &Scene) -> Result<Marks, NoMemory>
        ensures { IfOk result (λ marks. (us : ProgramUnits) → IsScene us scene.now → Spec.AreMarks us marks) }
    {
        let formals = Formals::new(alloc, scene.units)?;
        let passings = passings(alloc, scene, &formals)?;
        let assigned = uses(alloc, scene, &formals, &passings, false)?;
        let indexes = uses(alloc, scene, &formals, &passings, true)?;
        Ok(Marks {
            formals,
            assigned,
            indexes,
        })
    }

    /// Whether a dummy argument of a unit is assigned, there or where it is passed on.
    pub fn is_assigned(&self, unit: usize, formal: &Name) -> bool
        ensures { (us : ProgramUnits) → Spec.AreMarks us self.now → unit < length (all_units us) → IsTrue (Lists.is_among formal.now (Spec.formals_at (all_units us) unit))
            → IsTrue result ↔ Rules.IsAssigned us (unit_at us unit) formal.now }
    {
        is_marked(self.formals.number(unit, formal), &self.assigned)
    }

    /// Whether a dummy argument of a unit is a DO variable, there or where it is passed on.
    pub fn is_index(&self, unit: usize, formal: &Name) -> bool
        ensures { (us : ProgramUnits) → Spec.AreMarks us self.now → unit < length (all_units us) → IsTrue (Lists.is_among formal.now (Spec.formals_at (all_units us) unit))
            → IsTrue result ↔ Rules.IsIndex us (unit_at us unit) formal.now }
    {
        is_marked(self.formals.number(unit, formal), &self.indexes)
    }
}

/// The marks of the dummy arguments that are assigned, or of those that are DO variables.
fn uses(
    alloc: Global,
    scene: &Scene,
    formals: &Formals,
    passings: &Arrows,
    as_indexes: bool,
) -> Result<Vec<bool>, NoMemory>
    requires { length (ends_of passings.now) ≡ formals.now.count }
    ensures { IfOk result (λ marks. (us : ProgramUnits) → IsScene us scene.now → AreFormals (all_units us) formals.now
        → ((from to : ℕ) → Leads (ends_of passings.now) from to ↔ Spec.ArePassed us from to) → AreUses (Spec.used_names as_indexes) us marks.items) }
{
    let seeds = seeds(alloc, scene, formals, as_indexes)?;
    passings.reached(alloc, &seeds)
}

/// The numbers of the dummy arguments that their units assign, or have as DO variables.
fn seeds(
    alloc: Global,
    scene: &Scene,
    formals: &Formals,
    as_indexes: bool,
) -> Result<Vec<usize>, NoMemory>
    ensures below { IfOk result (λ seeds. AreBelow formals.now.count seeds.items) }
    ensures seeds { IfOk result (λ seeds. (us : ProgramUnits) → IsScene us scene.now → AreFormals (all_units us) formals.now
        → (n : ℕ) → Rules.IsIn n seeds.items ↔ Spec.IsSeed (Spec.used_names as_indexes) us n) }
{
    let mut seeds = Vec::new(alloc);
    for unit in 0..scene.units.len() {
        let names = names_used(alloc, &scene.units[unit], as_indexes)?;
        let own = scene.units[unit].formals.as_slice();
        add_seeds(&mut seeds, formals, unit, own, &names)?;
    }
    Ok(seeds)
}

/// The variables that a unit assigns, or has as DO variables.
fn names_used(alloc: Global, unit: &ProgramUnit, as_indexes: bool) -> Result<NameSet, NoMemory>
    ensures { IfOk result (λ names. (x : List ℕ) → Lists.is_among x names ≡ Lists.is_among x (Spec.used_names as_indexes (program_unit_of unit.now))) }
{
    if as_indexes {
        indexes(alloc, &unit.program.body)
    } else {
        assigned(alloc, &unit.program.body)
    }
}

/// Adds the numbers of those dummy arguments of a unit that are among these names.
fn add_seeds(
    seeds: &mut Vec<usize>,
    formals: &Formals,
    unit: usize,
    own: &[Name],
    names: &NameSet,
) -> Result<(), NoMemory>
    ensures below { OnOk result (AreBelow formals.now.count seeds.old.items → AreBelow formals.now.count seeds.new.items) }
    ensures seeds { OnOk result ((us : List PlainUnit) → AreFormals us formals.now → unit < length us
        → (n : ℕ) → Rules.IsIn n seeds.new.items ↔ (Rules.IsIn n seeds.old.items ⊎ Spec.IsSeedAmong us unit own.now names.now n)) }
{
    for name in own {
        add_seed(seeds, formals, unit, name, names)?;
    }
    Ok(())
}

/// Adds the number of a dummy argument of a unit where it is among these names.
fn add_seed(
    seeds: &mut Vec<usize>,
    formals: &Formals,
    unit: usize,
    name: &Name,
    names: &NameSet,
) -> Result<(), NoMemory>
    ensures below { OnOk result (AreBelow formals.now.count seeds.old.items → AreBelow formals.now.count seeds.new.items) }
    ensures seeds { OnOk result ((us : List PlainUnit) → AreFormals us formals.now → unit < length us
        → (n : ℕ) → Rules.IsIn n seeds.new.items ↔ (Rules.IsIn n seeds.old.items ⊎ Spec.IsSeedAmong us unit (name.now ∷ []) names.now n)) }
{
    if !names.contains(name) {
        return Ok(());
    }
    add_number(seeds, formals.number(unit, name))
}

/// Adds a number, where there is one.
fn add_number(numbers: &mut Vec<usize>, number: Option<usize>) -> Result<(), NoMemory>
    ensures { OnOk result (numbers.new.items ≡ Spec.with_some numbers.old.items number) }
{
    let Some(number) = number else {
        return Ok(());
    };
    numbers.push(number)?;
    Ok(())
}

/// The arrows from each dummy argument to those that are passed for it.
fn passings(alloc: Global, scene: &Scene, formals: &Formals) -> Result<Arrows, NoMemory>
    ensures wide { IfOk result (λ arrows. length (ends_of arrows) ≡ formals.now.count) }
    ensures arrows { IfOk result (λ arrows. (us : ProgramUnits) → IsScene us scene.now → AreFormals (all_units us) formals.now
        → (from to : ℕ) → Leads (ends_of arrows) from to ↔ Spec.ArePassed us from to) }
{
    let mut arrows = Arrows::new(alloc, formals.count)?;
    for unit in 0..scene.units.len() {
        add_passings(&mut arrows, scene, formals, unit, &scene.walks[unit].calls)?;
    }
    Ok(arrows)
}

/// Adds the arrows to dummy arguments of a unit that these CALLs of it make.
fn add_passings(
    arrows: &mut Arrows,
    scene: &Scene,
    formals: &Formals,
    unit: usize,
    calls: &[PlacedCall],
) -> Result<(), NoMemory>
    requires { length (ends_of arrows.old) ≡ formals.now.count }
    ensures wide { length (ends_of arrows.new) ≡ length (ends_of arrows.old) }
    ensures added { OnOk result ((us : ProgramUnits) → IsScene us scene.now → AreFormals (all_units us) formals.now → unit < length (all_units us)
        → (from to : ℕ) → Leads (ends_of arrows.new) from to ↔ (Leads (ends_of arrows.old) from to ⊎ Spec.CallsPass us unit calls.now from to)) }
{
    for call in calls {
        add_passings_at(arrows, scene, formals, unit, call)?;
    }
    Ok(())
}

/// Adds the arrows to dummy arguments of a unit that one CALL of it makes.
fn add_passings_at(
    arrows: &mut Arrows,
    scene: &Scene,
    formals: &Formals,
    unit: usize,
    call: &PlacedCall,
) -> Result<(), NoMemory>
    requires { length (ends_of arrows.old) ≡ formals.now.count }
    ensures wide { length (ends_of arrows.new) ≡ length (ends_of arrows.old) }
    ensures added { OnOk result ((us : ProgramUnits) → IsScene us scene.now → AreFormals (all_units us) formals.now → unit < length (all_units us)
        → (from to : ℕ) → Leads (ends_of arrows.new) from to ↔ (Leads (ends_of arrows.old) from to ⊎ Spec.CallsPass us unit (call.now ∷ []) from to)) }
{
    let Some(callee) = scene.callee(&call.name) else {
        return Ok(());
    };
    let names = scene.units[callee].formals.as_slice();
    add_passings_of(
        arrows,
        formals,
        unit,
        callee,
        names,
        call.arguments.as_slice(),
    )
}

/// Adds the arrows that a CALL makes, from dummy arguments with these names to the arguments.
fn add_passings_of(
    arrows: &mut Arrows,
    formals: &Formals,
    unit: usize,
    callee: usize,
    names: &[Name],
    arguments: &[Option<Name>],
) -> Result<(), NoMemory>
    requires { length (ends_of arrows.old) ≡ formals.now.count }
    ensures wide { length (ends_of arrows.new) ≡ length (ends_of arrows.old) }
    ensures added { OnOk result ((us : List PlainUnit) → AreFormals us formals.now → unit < length us → callee < length us
        → (from to : ℕ) → Leads (ends_of arrows.new) from to ↔ (Leads (ends_of arrows.old) from to ⊎ Spec.PassesIn us unit callee names.now arguments.now from to)) }
{
    for place in 0..lesser(names.len(), arguments.len()) {
        let from = formals.number(callee, &names[place]);
        let to = formals.passed_number(unit, &arguments[place]);
        add_arrow(arrows, from, to)?;
    }
    Ok(())
}

/// The sum of two numbers, where it is below a bound.
fn sum_below(a: usize, b: usize, bound: usize) -> Option<usize>
    ensures below { IfSome result (λ n. n < bound) }
    ensures sum { a + b < bound → result ≡ Some (a + b) }
{
    let sum = a.checked_add(b)?;
    if sum < bound { Some(sum) } else { None }
}

/// The lesser one of two numbers.
pub fn lesser(a: usize, b: usize) -> usize
    ensures first { result ≤ a }
    ensures second { result ≤ b }
    ensures one { (result ≡ a) ⊎ (result ≡ b) }
{
    if a < b { a } else { b }
}
