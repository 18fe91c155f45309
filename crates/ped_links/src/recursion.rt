//! CALLs that lead back to the units that contain them (ANSI X3.9-1978, section 15.6.3).

ghost use Rattle.std.specs.Prelude.{◌≡◌, ◌↔◌, ◌⊎◌, ◌<◌, ℕ, Some, IfOk, OnOk, IsTrue, length};
ghost use Rattle.ped_units.specs.Units.{ProgramUnits, all_units};
ghost use Rattle.ped_units.specs.Linking as Rules;
ghost use Rattle.ped_links.specs.FirstLinks.{IsFirstOf};
ghost use Rattle.ped_links.specs.ArrowViews.{ends_of};
ghost use Rattle.ped_links.specs.Reaching.{Leads};
ghost use Rattle.ped_links.specs.Scenes.{IsScene, CallsAt, CallsMarked, StandsAtCalls, AtRecursions};
ghost use Rattle.ped_links.specs.Recursions.{CallsIn, CallMayComeFirst, MayComeFirst, IsFoundIn};

use crate::arrows::add_arrow;
use crate::first_links::{comes_first, first_of_two, standing};
use crate::numbering::is_marked;
use crate::placing::PlacedCall;
use crate::ranking::may_return;
use crate::reaching::Arrows;
use crate::scenes::Scene;
use ped_base::NoMemory;
use ped_units::{UnitFinding, UnitRule};
use std::alloc::Global;

/// The first CALL from which CALLs lead back to its unit.
pub fn first_recursion(alloc: Global, scene: &Scene) -> Result<Option<UnitFinding>, NoMemory>
    ensures { IfOk result (λ found. (us : ProgramUnits) → IsScene us scene.now → IsFirstOf (AtRecursions us) found) }
{
    let callers = callers(alloc, scene)?;
    let marks = may_return(alloc, &callers)?;
    let mut found = None;
    for unit in 0..scene.units.len() {
        let more = recursion_in(alloc, scene, &callers, &marks, found, unit)?;
        found = first_of_two(found, more);
    }
    Ok(found)
}

/// The first such CALL in a unit, where it may come before what was found. Of the units that are called only those that are
/// marked may be called again.
fn recursion_in(
    alloc: Global,
    scene: &Scene,
    callers: &Arrows,
    marks: &[bool],
    found: Option<UnitFinding>,
    unit: usize,
) -> Result<Option<UnitFinding>, NoMemory>
    requires unit { unit < length scene.now.units.now }
    requires callers { length (ends_of callers.now) ≡ length scene.now.units.now }
    ensures { IfOk result (λ more. (us : ProgramUnits) → IsScene us scene.now → IsFoundIn us (ends_of callers.now) marks.now found unit more) }
{
    let calls = &scene.walks[unit].calls;
    if !may_come_first(scene, marks, found, calls) {
        return Ok(None);
    }
    let leading = callers.reached(alloc, &[unit])?;
    Ok(first_leading(scene, &leading, calls))
}

/// Whether one of these CALLs comes before what was found and calls a unit that is marked.
fn may_come_first(
    scene: &Scene,
    marks: &[bool],
    found: Option<UnitFinding>,
    calls: &[PlacedCall],
) -> bool
    ensures { (us : ProgramUnits) → IsScene us scene.now → IsTrue result ↔ MayComeFirst (all_units us) marks.now found calls.now }
{
    for call in calls {
        if call_may_come_first(scene, marks, found, call) {
            return true;
        }
    }
    false
}

/// Whether a CALL comes before what was found and calls a unit that is marked.
fn call_may_come_first(
    scene: &Scene,
    marks: &[bool],
    found: Option<UnitFinding>,
    call: &PlacedCall,
) -> bool
    ensures { (us : ProgramUnits) → IsScene us scene.now → IsTrue result ↔ CallMayComeFirst (all_units us) marks.now found call.now }
{
    let finding = UnitFinding {
        rule: UnitRule::Recursion,
        line: call.line,
    };
    let comes_before = comes_first(finding, found);
    comes_before && is_marked(scene.callee(&call.name), marks)
}

/// The first of these CALLs that calls a unit that is marked.
fn first_leading(scene: &Scene, leading: &[bool], calls: &[PlacedCall]) -> Option<UnitFinding>
    ensures { (us : ProgramUnits) → IsScene us scene.now → IsFirstOf (StandsAtCalls calls.now Rules.Recursion (CallsMarked (all_units us) leading.now)) result }
{
    let mut found = None;
    for call in calls {
        let leads = is_marked(scene.callee(&call.name), leading);
        found = standing(found, leads, UnitRule::Recursion, call.line);
    }
    found
}

/// The arrows from each unit to those that call it.
fn callers(alloc: Global, scene: &Scene) -> Result<Arrows, NoMemory>
    ensures wide { IfOk result (λ arrows. length (ends_of arrows) ≡ length scene.now.units.now) }
    ensures arrows { IfOk result (λ arrows. (us : ProgramUnits) → IsScene us scene.now → (k i : ℕ) → Leads (ends_of arrows) k i ↔ CallsAt us i k) }
{
    let mut arrows = Arrows::new(alloc, scene.units.len())?;
    for unit in 0..scene.units.len() {
        add_callers(&mut arrows, scene, unit, &scene.walks[unit].calls)?;
    }
    Ok(arrows)
}

/// Adds the arrows to a unit that these CALLs make.
fn add_callers(
    arrows: &mut Arrows,
    scene: &Scene,
    unit: usize,
    calls: &[PlacedCall],
) -> Result<(), NoMemory>
    requires wide { length (ends_of arrows.old) ≡ length scene.now.units.now }
    requires unit { unit < length scene.now.units.now }
    ensures wide { length (ends_of arrows.new) ≡ length (ends_of arrows.old) }
    ensures added { OnOk result ((us : ProgramUnits) → IsScene us scene.now → (k i : ℕ) → Leads (ends_of arrows.new) k i ↔ (Leads (ends_of arrows.old) k i ⊎ ((i ≡ unit) × CallsIn (all_units us) calls.now k))) }
{
    for call in calls {
        add_arrow(arrows, scene.callee(&call.name), Some(unit))?;
    }
    Ok(())
}
