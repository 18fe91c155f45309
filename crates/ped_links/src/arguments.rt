//! Whether the arguments of CALLs fit dummy arguments (ANSI X3.9-1978, section 15.9.3).

ghost use Rattle.std.specs.Prelude.{◌≡◌, ◌↔◌, ◌⊎◌, ◌<◌, ◌≤◌, ◌+◌, ◌||◌, ◌&&◌, ◌∷◌, ℕ, [], Some, None, is_some, not, IfOk, IsTrue, length, drop, get_or};
ghost use Rattle.ped_base.specs.Lists as Lists;
ghost use Rattle.ped_units.specs.ped_valid.specs.ped_symbols.specs.Entries.{entry_of};
ghost use Rattle.ped_units.specs.Units.{ProgramUnits};
ghost use Rattle.ped_units.specs.Linking as Rules;
ghost use Rattle.ped_links.specs.Arguments as Spec;
ghost use Rattle.ped_links.specs.FirstLinks.{IsFirstOf};
ghost use Rattle.ped_links.specs.Scenes.{IsScene, unit_at, AtArguments};

use crate::first_links::{first_of_two, standing};
use crate::formals::{Marks, lesser};
use crate::placing::PlacedCall;
use crate::scenes::Scene;
use ped_base::{Bounds, Name, NoMemory, is_among};
use ped_units::{Kind, Symbols, UnitFinding, UnitRule};
use std::alloc::Global;

/// The first of what is refused at CALLs for their arguments.
pub fn first_misfit(alloc: Global, scene: &Scene) -> Result<Option<UnitFinding>, NoMemory>
    ensures { IfOk result (λ found. (us : ProgramUnits) → IsScene us scene.now → IsFirstOf (AtArguments us) found) }
{
    let marks = Marks::new(alloc, scene)?;
    let mut found = None;
    for unit in 0..scene.units.len() {
        let more = misfits_in(scene, &marks, unit, &scene.walks[unit].calls);
        found = first_of_two(found, more);
    }
    Ok(found)
}

/// The first of what is refused at these CALLs of a unit for their arguments.
fn misfits_in(
    scene: &Scene,
    marks: &Marks,
    unit: usize,
    calls: &[PlacedCall],
) -> Option<UnitFinding>
    requires { unit < length scene.now.units.now }
    ensures { (us : ProgramUnits) → IsScene us scene.now → Spec.AreMarks us marks.now → IsFirstOf (Spec.StandsForArguments us unit calls.now) result }
{
    let mut found = None;
    for call in calls {
        found = first_of_two(found, misfit_at(scene, marks, unit, call));
    }
    found
}

/// The first of what is refused at one CALL of a unit for its arguments.
fn misfit_at(scene: &Scene, marks: &Marks, unit: usize, call: &PlacedCall) -> Option<UnitFinding>
    requires { unit < length scene.now.units.now }
    ensures { (us : ProgramUnits) → IsScene us scene.now → Spec.AreMarks us marks.now → IsFirstOf (Spec.StandsForArguments us unit (call.now ∷ [])) result }
{
    let callee = scene.callee(&call.name)?;
    let at = At {
        call,
        callee,
        formals: scene.units[callee].formals.as_slice(),
        caller_table: &scene.tables[unit],
        callee_table: &scene.tables[callee],
        marks,
    };
    at.refusal()
}

/// A CALL with what its arguments are looked at by.
#[derive(Clone, Copy)]
struct At<'l> {
    call: &'l PlacedCall,
    callee: usize,
    formals: &'l [Name],
    caller_table: &'l Symbols,
    callee_table: &'l Symbols,
    marks: &'l Marks,
}

impl<'l> At<'l> {
    /// The first of what is refused here.
    fn refusal(&self) -> Option<UnitFinding>
        ensures { (us : ProgramUnits) (i : ℕ) → Spec.IsAt us i self.now → IsFirstOf (Spec.StandsHere us i self.now) result }
    {
        let line = self.call.line;
        let bad = self.has_bad_arguments();
        let found = standing(None, bad, UnitRule::Arguments, line);
        let aliased = self.is_aliased();
        standing(found, aliased, UnitRule::Aliased, line)
    }

    /// Whether the number of arguments differs, or one doesn't fit.
    fn has_bad_arguments(&self) -> bool
        ensures { (us : ProgramUnits) (i : ℕ) → Spec.IsAt us i self.now → IsTrue result ↔ Spec.HasMisfit us (unit_at us i) (unit_at us self.now.callee) self.now.call.now }
    {
        let arguments = self.call.arguments.as_slice();
        if arguments.len() != self.formals.len() {
            return true;
        }
        for place in 0..arguments.len() {
            if self.misfits(&self.formals[place], &arguments[place]) {
                return true;
            }
        }
        false
    }

    /// Whether an argument doesn't fit its dummy argument.
    fn misfits(&self, formal: &Name, argument: &Option<Name>) -> bool
        ensures { (us : ProgramUnits) (i : ℕ) → Spec.IsAt us i self.now → IsTrue (Lists.is_among formal.now (unit_at us self.now.callee).formals)
            → IsTrue result ↔ Spec.IsMisfit us (unit_at us i) (unit_at us self.now.callee) self.now.call.now.around formal.now argument.now }
    {
        let assigned = self.marks.is_assigned(self.callee, formal);
        let index = self.marks.is_index(self.callee, formal);
        let around = &self.call.around;
        let kind = kind_of_argument(self.caller_table, argument);
        let other = is_other_kind(&self.callee_table.kind(formal), &kind, assigned);
        let at_variable = is_one_of(argument, around.variables.as_slice());
        let at_private = is_one_of(argument, around.private.as_slice());
        other | (assigned & at_variable) | (index & at_private)
    }

    /// Whether one variable's name stands for two dummy arguments of which one is assigned.
    fn is_aliased(&self) -> bool
        ensures { (us : ProgramUnits) (i : ℕ) → Spec.IsAt us i self.now
            → IsTrue result ↔ Spec.SomeAliased us (unit_at us i) (unit_at us self.now.callee) self.now.formals.now self.now.call.now.arguments }
    {
        for place in 0..self.count() {
            if self.is_aliased_at(place) {
                return true;
            }
        }
        false
    }

    /// How many dummy arguments have an argument.
    fn count(&self) -> usize
        ensures arguments { result ≤ length self.now.call.now.arguments }
        ensures formals { result ≤ length self.now.formals.now }
        ensures one { (result ≡ length self.now.call.now.arguments) ⊎ (result ≡ length self.now.formals.now) }
    {
        lesser(self.call.arguments.len(), self.formals.len())
    }

    /// Whether the variable's name at a place occurs again after it, and one of the two is assigned.
    fn is_aliased_at(&self, place: usize) -> bool
        requires arguments { place < length self.now.call.now.arguments }
        requires formals { place < length self.now.formals.now }
        ensures { (us : ProgramUnits) (i : ℕ) → Spec.IsAt us i self.now
            → IsTrue result ↔ Spec.IsAliasedFirst us (unit_at us i) (unit_at us self.now.callee) (get_or self.now.formals.now place []) (get_or self.now.call.now.arguments place None)
            (drop (place + 1) self.now.formals.now) (drop (place + 1) self.now.call.now.arguments) }
    {
        match &self.call.arguments.as_slice()[place] {
            Some(name) => self.is_name_aliased(place, name),
            None => false,
        }
    }

    /// Whether the name at a place is a variable's, occurs again after it, and one of the two is assigned.
    fn is_name_aliased(&self, place: usize, name: &Name) -> bool
        requires arguments { place < length self.now.call.now.arguments }
        requires formals { place < length self.now.formals.now }
        ensures { (us : ProgramUnits) (i : ℕ) → Spec.IsAt us i self.now
            → IsTrue result ↔ Spec.IsAliasedFirst us (unit_at us i) (unit_at us self.now.callee) (get_or self.now.formals.now place []) (Some name.now)
            (drop (place + 1) self.now.formals.now) (drop (place + 1) self.now.call.now.arguments) }
    {
        if is_constant(self.caller_table, name) {
            return false;
        }
        self.is_aliased_behind(place, name)
    }

    /// Whether a variable's name at a place also occurs after it, and one of the two is assigned.
    fn is_aliased_behind(&self, place: usize, name: &Name) -> bool
        requires arguments { place < length self.now.call.now.arguments }
        requires formals { place < length self.now.formals.now }
        ensures { (us : ProgramUnits) (i : ℕ) → Spec.IsAt us i self.now
            → IsTrue result ↔ Spec.IsAgain us (unit_at us self.now.callee) (get_or self.now.formals.now place []) name.now (drop (place + 1) self.now.formals.now) (drop (place + 1) self.now.call.now.arguments) }
    {
        let assigned = self.marks.is_assigned(self.callee, &self.formals[place]);
        for other in place + 1..self.count() {
            if self.is_again_at(other, name, assigned) {
                return true;
            }
        }
        false
    }

    /// Whether a name is at a place, and its dummy argument there or the other one is assigned.
    fn is_again_at(&self, place: usize, name: &Name, other_assigned: bool) -> bool
        requires arguments { place < length self.now.call.now.arguments }
        requires formals { place < length self.now.formals.now }
        ensures { (us : ProgramUnits) (i : ℕ) → Spec.IsAt us i self.now
            → IsTrue result ↔ ((get_or self.now.call.now.arguments place None ≡ Some name.now) × (IsTrue other_assigned ⊎ Rules.IsAssigned us (unit_at us self.now.callee) (get_or self.now.formals.now place []))) }
    {
        let again = is_name(&self.call.arguments.as_slice()[place], name);
        let assigned = self.marks.is_assigned(self.callee, &self.formals[place]);
        again & (other_assigned | assigned)
    }
}

/// What an argument stands for, where it is a name.
fn kind_of_argument(table: &Symbols, argument: &Option<Name>) -> Option<Kind>
    ensures { result ≡ Spec.kind_of_argument table.now argument.now }
{
    match argument {
        Some(name) => table.kind(name),
        None => None,
    }
}

/// Whether a name stands for a constant.
fn is_constant(table: &Symbols, name: &Name) -> bool
    ensures { result ≡ Rules.is_constant (entry_of table.now.kinds name.now) }
{
    match table.kind(name) {
        Some(Kind::Constant(_)) => true,
        Some(Kind::Scalar) | Some(Kind::Array(_)) | None => false,
    }
}

/// Whether an argument that stands for this doesn't fit a dummy argument that stands for that: another array or none for an
/// array, an array for a scalar, no scalar for one that is assigned.
fn is_other_kind(formal: &Option<Kind>, argument: &Option<Kind>, assigned: bool) -> bool
    ensures { IsTrue result ↔ Spec.IsOtherKind formal.now argument.now (IsTrue assigned) }
{
    match formal {
        Some(Kind::Array(bounds)) => !has_bounds(argument, bounds),
        Some(Kind::Scalar) | Some(Kind::Constant(_)) | None => isnt_scalar(argument, assigned),
    }
}

/// Whether an argument for a dummy scalar is an array, or no scalar where the dummy is assigned.
fn isnt_scalar(argument: &Option<Kind>, assigned: bool) -> bool
    ensures { result ≡ (is_some (Rules.bounds_by argument.now) || (assigned && not (Rules.is_scalar argument.now))) }
{
    let array = is_array(argument);
    let scalar = is_scalar(argument);
    array || (assigned && !scalar)
}

/// Whether this is an array with these bounds.
fn has_bounds(kind: &Option<Kind>, bounds: &Bounds) -> bool
    ensures { IsTrue result ↔ (Rules.bounds_by kind.now ≡ Some bounds.now) }
{
    match kind {
        Some(Kind::Array(other)) => are_same(other, bounds),
        Some(Kind::Scalar) | Some(Kind::Constant(_)) | None => false,
    }
}

/// Whether bounds are the same, dimension by dimension.
fn are_same(a: &Bounds, b: &Bounds) -> bool
    ensures { IsTrue result ↔ (a.now ≡ b.now) }
{
    let ranks = a.rank == b.rank;
    let lowers = a.lower == b.lower;
    let uppers = a.upper == b.upper;
    ranks & lowers & uppers
}

/// Whether this is an array.
fn is_array(kind: &Option<Kind>) -> bool
    ensures { result ≡ is_some (Rules.bounds_by kind.now) }
{
    match kind {
        Some(Kind::Array(_)) => true,
        Some(Kind::Scalar) | Some(Kind::Constant(_)) | None => false,
    }
}

/// Whether this is a scalar variable.
fn is_scalar(kind: &Option<Kind>) -> bool
    ensures { result ≡ Rules.is_scalar kind.now }
{
    match kind {
        Some(Kind::Scalar) => true,
        Some(Kind::Array(_)) | Some(Kind::Constant(_)) | None => false,
    }
}

/// Whether an argument is this name.
fn is_name(argument: &Option<Name>, name: &Name) -> bool
    ensures { IsTrue result ↔ (argument.now ≡ Some name.now) }
{
    match argument {
        Some(other) => other == name,
        None => false,
    }
}

/// Whether an argument is one of these names.
fn is_one_of(argument: &Option<Name>, names: &[Name]) -> bool
    ensures { result ≡ Spec.is_one_of argument.now names.now }
{
    match argument {
        Some(name) => is_among(name, names),
        None => false,
    }
}
