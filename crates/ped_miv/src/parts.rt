//! What the loops add to the difference of two subscripts, found once for each direction, and Banerjee's test of
//! the fronts of vectors by it: what the loops of a front add is carried along, and what those behind it add is
//! known.

ghost use Rattle.std.specs.Prelude.{◌≡◌, ◌<◌, ◌≤◌, ◌↔◌, ◌++◌, ◌∷◌, [], ◌+◌, length, IsTrue};
ghost use Rattle.ped_views.specs.Limits.{IsSmallCoefficient, FitsLoops};
ghost use Rattle.ped_views.specs.Excluded.{IsBeyondExtremes};
ghost use Rattle.ped_miv.specs.Values.{AreExtremes, DifferenceValue};
ghost use Rattle.ped_miv.specs.Parts.{AreParts, ArePartsAt, IsRest, IsSum, MaySum, part_of};

use crate::differences::{combined, sink_part, source_part};
use crate::extremes::loop_extremes;
use crate::rows::{common_coefficients, constant_difference};
use ped_views::{Direction, Interval, LoopRange, PairView, Position};

/// The least and the greatest value that one common loop adds to the difference of the subscripts at a position: in
/// any direction, and in each. None where there are no such values.
#[derive(Clone, Copy)]
pub struct LoopParts {
    any: Option<Interval>,
    before: Option<Interval>,
    same: Option<Interval>,
    after: Option<Interval>,
}

impl LoopParts {
    /// What the loop adds in a direction.
    pub(crate) fn under(&self, direction: Direction) -> Option<Interval>
        ensures { result ≡ part_of direction self.now }
    {
        match direction {
            Direction::Before => self.before,
            Direction::Same => self.same,
            Direction::After => self.after,
        }
    }
}

/// What the common loop at this place adds at a position of the view.
pub fn loop_parts(view: &PairView, position: &Position, place: usize) -> LoopParts
    requires place { place < length view.now.loops }
    requires fits { FitsLoops
        (length view.now.loops)
        (length view.now.source_inner)
        (length view.now.sink_inner)
        position.now }
    ensures { ArePartsAt view.now.loops position.now.source.common position.now.sink.common place result }
{
    let source = common_coefficients(&position.source);
    let sink = common_coefficients(&position.sink);
    parts_of(&view.loops[place], source[place], sink[place])
}

/// What a loop adds with these coefficients.
fn parts_of(range: &LoopRange, a: i64, b: i64) -> LoopParts
    requires source { IsSmallCoefficient a }
    requires sink { IsSmallCoefficient b }
    ensures { AreParts range.now a b result }
{
    LoopParts {
        any: loop_extremes(range, None, a, b),
        before: loop_extremes(range, Some(Direction::Before), a, b),
        same: loop_extremes(range, Some(Direction::Same), a, b),
        after: loop_extremes(range, Some(Direction::After), a, b),
    }
}

/// What the common loops behind the last add: nothing.
pub fn no_rest(_view: &PairView, _position: &Position) -> Option<Interval>
    ensures { IsRest _view.now _position.now (length _view.now.loops) result }
{
    Some(Interval { lo: 0, hi: 0 })
}

/// What the common loops from a place on add in any directions, where those after it add `rest`.
pub fn rest_from(
    _view: &PairView,
    _position: &Position,
    _place: usize,
    rest: Option<Interval>,
    parts: &LoopParts,
) -> Option<Interval>
    requires few { _place < 6 }
    requires place { _place < length _view.now.loops }
    requires fits { FitsLoops
        (length _view.now.loops)
        (length _view.now.source_inner)
        (length _view.now.sink_inner)
        _position.now }
    requires rest { IsRest _view.now _position.now (_place + 1) rest }
    requires parts { ArePartsAt
        _view.now.loops
        _position.now.source.common
        _position.now.sink.common
        _place
        parts.now }
    ensures { IsRest _view.now _position.now _place result }
{
    let behind = rest?;
    let here = parts.any?;
    Some(behind.add(here))
}

/// What is added before any common loop has a direction: by the further loops of both sides, and by the constants.
pub fn sum_at_start(view: &PairView, position: &Position) -> Option<Interval>
    requires { FitsLoops
        (length view.now.loops)
        (length view.now.source_inner)
        (length view.now.sink_inner)
        position.now }
    ensures { MaySum view.now position.now [] result }
{
    let source = source_part(view, position)?;
    let sink = sink_part(view, position)?;
    Some(combined(
        Interval { lo: 0, hi: 0 },
        source,
        sink,
        constant_difference(position),
    ))
}

/// The sum of a front with a direction of one more loop, which has these parts.
pub fn sum_with(
    _view: &PairView,
    _position: &Position,
    _front: &[Direction],
    sum: Interval,
    parts: &LoopParts,
    direction: Direction,
) -> Option<Interval>
    requires few { length _front.now < 6 }
    requires place { length _front.now < length _view.now.loops }
    requires fits { FitsLoops
        (length _view.now.loops)
        (length _view.now.source_inner)
        (length _view.now.sink_inner)
        _position.now }
    requires sum { IsSum _view.now _position.now _front.now sum }
    requires parts { ArePartsAt
        _view.now.loops
        _position.now.source.common
        _position.now.sink.common
        (length _front.now)
        parts.now }
    ensures { MaySum _view.now _position.now (_front.now ++ direction ∷ []) result }
{
    let part = parts.under(direction)?;
    Some(sum.add(part))
}

/// Whether the extremes of the difference of its two subscripts exclude a front at a position, as
/// `banerjee_excludes` tells, by the sum of the front and by what the loops behind it add.
pub fn sums_exclude(
    view: &PairView,
    position: &Position,
    front: &[Direction],
    sum: Interval,
    rest: Option<Interval>,
) -> bool
    requires few { length front.now ≤ 6 }
    requires sum { IsSum view.now position.now front.now sum }
    requires rest { IsRest view.now position.now (length front.now) rest }
    ensures { IsTrue result ↔ IsBeyondExtremes view.now position.now front.now }
{
    match total_of(view, position, front, sum, rest) {
        None => true,
        Some(extremes) => 0 < extremes.lo || extremes.hi < 0,
    }
}

/// The extremes of the difference under a front, by its sum and by what the loops behind it add.
fn total_of(
    _view: &PairView,
    _position: &Position,
    _front: &[Direction],
    sum: Interval,
    rest: Option<Interval>,
) -> Option<Interval>
    requires few { length _front.now ≤ 6 }
    requires sum { IsSum _view.now _position.now _front.now sum }
    requires rest { IsRest _view.now _position.now (length _front.now) rest }
    ensures { AreExtremes (DifferenceValue _view.now _position.now _front.now) result }
{
    let behind = rest?;
    Some(sum.add(behind))
}
