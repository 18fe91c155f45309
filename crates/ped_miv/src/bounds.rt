//! Whether Banerjee's test excludes any vector with a front: by the greatest of the least values that the loops behind the
//! front add in any directions, and the least of the greatest.

ghost use Rattle.std.specs.Prelude.{◌≡◌, ◌+◌, ◌++◌, ◌<◌, ◌≤◌, ◌↔◌, List, length, IsTrue};
ghost use Rattle.ped_views.specs.declared.directions.Direction.{Direction as SpecDirection};
ghost use Rattle.ped_views.specs.Limits.{FitsLoops};
ghost use Rattle.ped_views.specs.Excluded.{IsBeyondExtremes};
ghost use Rattle.ped_miv.specs.Parts.{ArePartsAt, IsSum};
ghost use Rattle.ped_miv.specs.Bounds.{MayBoundLoop, MayBound};

use crate::parts::LoopParts;
use ped_views::{Direction, Interval, PairView, Position};

/// The greatest of the least values that loops add to the difference of the subscripts at a position, over all
/// directions, and the least of the greatest.
#[derive(Clone, Copy)]
pub struct Bounds {
    lo: i128,
    hi: i128,
}

/// The bounds of what the common loops behind the last add: nothing.
pub fn no_bounds(_view: &PairView, _position: &Position) -> Option<Bounds>
    ensures { MayBound _view.now _position.now (length _view.now.loops) result }
{
    Some(Bounds { lo: 0, hi: 0 })
}

/// The bounds of what the common loops from a place on add, where those after it have these bounds. None where there
/// are directions without values.
pub fn bounds_from(
    _view: &PairView,
    _position: &Position,
    _place: usize,
    bounds: Option<Bounds>,
    parts: &LoopParts,
) -> Option<Bounds>
    requires few { _place < 6 }
    requires place { _place < length _view.now.loops }
    requires fits { FitsLoops
        (length _view.now.loops)
        (length _view.now.source_inner)
        (length _view.now.sink_inner)
        _position.now }
    requires bounds { MayBound _view.now _position.now (_place + 1) bounds }
    requires parts { ArePartsAt
        _view.now.loops
        _position.now.source.common
        _position.now.sink.common
        _place
        parts.now }
    ensures { MayBound _view.now _position.now _place result }
{
    let behind = bounds?;
    let here = loop_bounds(parts)?;
    Some(Bounds {
        lo: behind.lo + here.lo,
        hi: behind.hi + here.hi,
    })
}

/// The bounds of what a loop adds.
fn loop_bounds(parts: &LoopParts) -> Option<Bounds>
    ensures { MayBoundLoop parts.now result }
{
    let before = parts.under(Direction::Before)?;
    let same = parts.under(Direction::Same)?;
    let after = parts.under(Direction::After)?;
    Some(Bounds {
        lo: before.lo.max(same.lo).max(after.lo),
        hi: before.hi.min(same.hi).min(after.hi),
    })
}

/// Whether Banerjee's test excludes any vector with a front, of which this is the sum, and these are the bounds of what
/// the loops behind it add.
pub fn any_excluded(
    _view: &PairView,
    _position: &Position,
    _front: &[Direction],
    sum: Interval,
    bounds: Option<Bounds>,
) -> bool
    requires few { length _front.now ≤ 6 }
    requires sum { IsSum _view.now _position.now _front.now sum }
    requires bounds { MayBound _view.now _position.now (length _front.now) bounds }
    ensures { IsTrue result ↔ ((rest : List SpecDirection)
        × (length rest + length _front.now ≡ length _view.now.loops)
        × IsBeyondExtremes _view.now _position.now (_front.now ++ rest)) }
{
    match bounds {
        None => true,
        Some(behind) => 0 < sum.lo + behind.lo || sum.hi + behind.hi < 0,
    }
}
