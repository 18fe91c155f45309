//! What is found once of a position with subscripts in several indices, and whether it excludes all vectors with a
//! front, or some.

ghost use Rattle.std.specs.Prelude.{◌≡◌, ◌+◌, ◌≤◌, ◌<◌, ◌↔◌, ℕ, List, length, IfOk, IsTrue};
ghost use Rattle.std.specs.Bool.{IsFalse};
ghost use Rattle.ped_views.specs.declared.directions.Direction.{Direction as SpecDirection};
ghost use Rattle.ped_views.specs.Excluded.{HasNoSolution};
ghost use Rattle.ped_views.specs.Limits.{FitsLoops};
ghost use Rattle.ped_miv.specs.Parts.{AreAllParts, IsSum, MaySum};
ghost use Rattle.ped_verdict.specs.Fronts.{is_done, occurs_at};
ghost use Rattle.ped_verdict.specs.Sights.{IsSight, IsShut, SomeBeyond, IsOpen, AreRests, AreAllBounds};

use crate::vectors::Vector;
use ped_base::NoMemory;
use ped_miv::{
    Bounds, LoopParts, any_excluded, bounds_from, gcd_excludes, loop_parts, no_bounds, no_rest,
    rest_from, sum_at_start, sum_with, sums_exclude,
};
use ped_views::{Direction, Interval, PairView, Position};
use std::alloc::Global;

/// What is found of a position.
#[derive(Drop)]
pub(crate) struct Sight {
    /// The place of the position in its view.
    pub(crate) position: usize,
    /// What is added before any common loop has a direction.
    start: Option<Interval>,
    /// What each common loop adds to the difference of its subscripts, the outermost first.
    parts: Vec<LoopParts>,
    /// What the last common loops add together in any directions: of none, of one, and so on.
    rests: Vec<Option<Interval>>,
    /// The bounds of what they add, over all directions.
    bounds: Vec<Option<Bounds>>,
    /// How many common loops there are up to the last that occurs.
    pub(crate) stage: usize,
    /// Whether the GCD test is known to exclude no vector.
    is_solved: bool,
}

/// Whether a front is excluded at a position: by Banerjee's test, and once all loops that occur have their directions
/// in it by the GCD test. Then all vectors with it are.
pub(crate) fn is_shut(view: &PairView, pair: &Position, sight: &Sight, front: &Vector) -> bool
    requires few { length view.now.loops ≤ 6 }
    requires fits { FitsLoops
        (length view.now.loops)
        (length view.now.source_inner)
        (length view.now.sink_inner)
        pair.now }
    requires sight { IsSight view.now pair.now sight.now }
    requires front { length front.now ≤ sight.now.stage }
    ensures { IsTrue result ↔ IsShut view.now pair.now sight.now.stage front.now }
{
    match sum_under(view, pair, sight, front) {
        None => true,
        Some(sum) => is_shut_by(view, pair, sight, front, sum),
    }
}

/// Whether a front is excluded at a position, by its sum, and once all loops that occur have their directions in it by
/// the GCD test.
fn is_shut_by(
    view: &PairView,
    pair: &Position,
    sight: &Sight,
    front: &Vector,
    sum: Interval,
) -> bool
    requires few { length view.now.loops ≤ 6 }
    requires fits { FitsLoops
        (length view.now.loops)
        (length view.now.source_inner)
        (length view.now.sink_inner)
        pair.now }
    requires sight { IsSight view.now pair.now sight.now }
    requires front { length front.now ≤ sight.now.stage }
    requires sum { IsSum view.now pair.now front.now sum }
    ensures { IsTrue result ↔ IsShut view.now pair.now sight.now.stage front.now }
{
    let rest = sight.rests[view.loops.len() - front.len()];
    if sums_exclude(view, pair, front.directions(), sum, rest) {
        return true;
    }
    if asks_gcd(sight, front) {
        return gcd_excludes(pair, front.directions());
    }
    false
}

/// Whether the GCD test is asked of a front: once all loops that occur have their directions, unless it excludes none.
fn asks_gcd(sight: &Sight, front: &Vector) -> bool
    ensures { IsTrue result ↔ ((length front.now ≡ sight.now.stage) × IsFalse sight.now.is_solved) }
{
    front.len() == sight.stage && !sight.is_solved
}

/// Whether a front leaves it open which of its vectors a position excludes: some loop that occurs has no direction yet,
/// and the GCD test may exclude a vector, or Banerjee's test excludes one with the front.
pub(crate) fn is_open(view: &PairView, pair: &Position, sight: &Sight, front: &Vector) -> bool
    requires few { length view.now.loops ≤ 6 }
    requires fits { FitsLoops
        (length view.now.loops)
        (length view.now.source_inner)
        (length view.now.sink_inner)
        pair.now }
    requires sight { IsSight view.now pair.now sight.now }
    ensures { IsTrue result ↔ IsOpen view.now pair.now sight.now front.now }
{
    if sight.stage <= front.len() {
        return false;
    }
    if !sight.is_solved {
        return true;
    }
    excludes_some(view, pair, sight, front)
}

/// Whether Banerjee's test excludes some vector with a front.
fn excludes_some(view: &PairView, pair: &Position, sight: &Sight, front: &Vector) -> bool
    requires few { length view.now.loops ≤ 6 }
    requires fits { FitsLoops
        (length view.now.loops)
        (length view.now.source_inner)
        (length view.now.sink_inner)
        pair.now }
    requires sight { IsSight view.now pair.now sight.now }
    requires front { length front.now ≤ sight.now.stage }
    ensures { IsTrue result ↔ SomeBeyond view.now pair.now front.now }
{
    match sum_under(view, pair, sight, front) {
        None => true,
        Some(sum) => excludes_some_by(view, pair, sight, front, sum),
    }
}

/// The same by the sum of the front.
fn excludes_some_by(
    view: &PairView,
    pair: &Position,
    sight: &Sight,
    front: &Vector,
    sum: Interval,
) -> bool
    requires few { length view.now.loops ≤ 6 }
    requires sight { IsSight view.now pair.now sight.now }
    requires front { length front.now ≤ sight.now.stage }
    requires sum { IsSum view.now pair.now front.now sum }
    ensures { IsTrue result ↔ SomeBeyond view.now pair.now front.now }
{
    let bounds = sight.bounds[view.loops.len() - front.len()];
    any_excluded(view, pair, front.directions(), sum, bounds)
}

/// The sum of a front: what is added at the start, and by each loop in its direction.
fn sum_under(view: &PairView, pair: &Position, sight: &Sight, front: &Vector) -> Option<Interval>
    requires few { length view.now.loops ≤ 6 }
    requires fits { FitsLoops
        (length view.now.loops)
        (length view.now.source_inner)
        (length view.now.sink_inner)
        pair.now }
    requires sight { IsSight view.now pair.now sight.now }
    requires front { length front.now ≤ sight.now.stage }
    ensures { MaySum view.now pair.now front.now result }
{
    let directions = front.directions();
    let mut sum = sight.start?;
    for (place, direction) in directions.iter().enumerate() {
        let before = &directions[..place];
        let parts = &sight.parts[place];
        sum = sum_with(view, pair, before, sum, parts, *direction)?;
    }
    Some(sum)
}

/// What is found of the position at this place.
pub(crate) fn sight_of(
    alloc: Global,
    view: &PairView,
    position: usize,
    pair: &Position,
) -> Result<Sight, NoMemory>
    requires { FitsLoops
        (length view.now.loops)
        (length view.now.source_inner)
        (length view.now.sink_inner)
        pair.now }
    ensures sight { IfOk result (λ s. IsSight view.now pair.now s) }
    ensures position { IfOk result (λ s. s.position ≡ position) }
{
    let start = sum_at_start(view, pair);
    let parts = all_parts(alloc, view, pair)?;
    let rests = all_rests(alloc, view, pair, &parts)?;
    let bounds = all_bounds(alloc, view, pair, &parts)?;
    let stage = stage(pair);
    let is_solved = is_solved(pair);
    Ok(Sight {
        position,
        start,
        parts,
        rests,
        bounds,
        stage,
        is_solved,
    })
}

/// What each common loop adds to the difference of the subscripts at a position, the outermost first.
fn all_parts(
    alloc: Global,
    view: &PairView,
    position: &Position,
) -> Result<Vec<LoopParts>, NoMemory>
    requires { FitsLoops
        (length view.now.loops)
        (length view.now.source_inner)
        (length view.now.sink_inner)
        position.now }
    ensures { IfOk result (λ parts. AreAllParts
        view.now.loops
        position.now.source.common
        position.now.sink.common
        parts.items) }
{
    let mut parts = Vec::with_capacity(alloc, view.loops.len())?;
    for place in 0..view.loops.len() {
        parts.push(loop_parts(view, position, place))?;
    }
    Ok(parts)
}

/// What the last common loops add together: of none, of one, and so on.
fn all_rests(
    alloc: Global,
    view: &PairView,
    position: &Position,
    parts: &[LoopParts],
) -> Result<Vec<Option<Interval>>, NoMemory>
    requires fits { FitsLoops
        (length view.now.loops)
        (length view.now.source_inner)
        (length view.now.sink_inner)
        position.now }
    requires parts { AreAllParts
        view.now.loops
        position.now.source.common
        position.now.sink.common
        parts.now }
    ensures { IfOk result (λ rests. AreRests view.now position.now rests.items) }
{
    let loops = view.loops.len();
    let mut rests = Vec::with_capacity(alloc, loops + 1)?;
    let mut rest = no_rest(view, position);
    rests.push(rest)?;
    for behind in 0..loops {
        let place = loops - 1 - behind;
        rest = rest_from(view, position, place, rest, &parts[place]);
        rests.push(rest)?;
    }
    Ok(rests)
}

/// The bounds of what the last common loops add together: of none, of one, and so on.
fn all_bounds(
    alloc: Global,
    view: &PairView,
    position: &Position,
    parts: &[LoopParts],
) -> Result<Vec<Option<Bounds>>, NoMemory>
    requires fits { FitsLoops
        (length view.now.loops)
        (length view.now.source_inner)
        (length view.now.sink_inner)
        position.now }
    requires parts { AreAllParts
        view.now.loops
        position.now.source.common
        position.now.sink.common
        parts.now }
    ensures { IfOk result (λ all. AreAllBounds view.now position.now all.items) }
{
    let loops = view.loops.len();
    let mut all = Vec::with_capacity(alloc, loops + 1)?;
    let mut bounds = no_bounds(view, position);
    all.push(bounds)?;
    for behind in 0..loops {
        let place = loops - 1 - behind;
        bounds = bounds_from(view, position, place, bounds, &parts[place]);
        all.push(bounds)?;
    }
    Ok(all)
}

/// How many common loops there are up to the last that occurs in a position.
fn stage(pair: &Position) -> usize
    ensures deep { result ≤ length pair.now.source.common }
    ensures done { IsTrue (is_done result pair.now) }
    ensures last { (m : ℕ) → m < result → IsFalse (is_done m pair.now) }
{
    let mut stage = 0;
    for place in 0..pair.source.common.len() {
        if occurs(pair, place) {
            stage = place + 1;
        }
    }
    stage
}

/// Whether the common loop at a place occurs in a position.
pub(crate) fn occurs(pair: &Position, place: usize) -> bool
    requires { place < length pair.now.source.common }
    ensures { result ≡ occurs_at pair.now place }
{
    pair.source.common[place] != 0 || pair.sink.common[place] != 0
}

/// Whether the GCD test excludes not even the vector of `=` alone, under which there are the fewest unknowns. Then it
/// excludes none.
fn is_solved(position: &Position) -> bool
    ensures { IsTrue result ↔ ((vector : List SpecDirection)
        → length vector ≤ 6
        → ¬ (HasNoSolution position.now vector)) }
{
    !gcd_excludes(position, &[Direction::Same; 6])
}
