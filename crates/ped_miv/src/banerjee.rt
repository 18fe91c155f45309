//! Banerjee's test with directions.

ghost use Rattle.std.specs.Prelude.{◌<◌, ◌↔◌, length, slice_get, IfSome, IsTrue};
ghost use Rattle.std.specs.Bool.{IsFalse};
ghost use Rattle.ped_views.specs.Limits.{FitsLoops};
ghost use Rattle.ped_views.specs.Excluded.{IsBeyondExtremes, IsDeadEnd};

use crate::differences::difference_extremes;
use ped_views::{Direction, PairView, Position};

/// Whether the extremes of the difference of its two subscripts exclude these directions at a position (Allen
/// and Kennedy, section 3.3, Banerjee's test): zero doesn't lie between the least and the greatest value over
/// the whole points of the ranges of the loops that occur, or there is no such point.
pub fn banerjee_excludes(view: &PairView, position: usize, directions: &[Direction]) -> bool
    requires { position < length view.now.positions }
    ensures { IfSome
        (slice_get view.now.positions position)
        (λ p. IsTrue result ↔ IsBeyondExtremes view.now p directions.now) }
{
    is_beyond_extremes(view, &view.positions[position], directions)
}

/// Whether a vector that begins with this prefix may be possible, as far as the extremes show: false exactly
/// where a usable position can't be zero under the prefix, whatever directions follow.
pub fn may_refine(view: &PairView, prefix: &[Direction]) -> bool
    ensures { IsFalse result ↔ IsDeadEnd view.now prefix.now }
{
    for position in &view.positions {
        if position.usable && is_beyond_extremes(view, position, prefix) {
            return false;
        }
    }
    true
}

/// Whether zero doesn't lie between the extremes, or there are none.
fn is_beyond_extremes(view: &PairView, position: &Position, directions: &[Direction]) -> bool
    requires { FitsLoops
        (length view.now.loops)
        (length view.now.source_inner)
        (length view.now.sink_inner)
        position.now }
    ensures { IsTrue result ↔ IsBeyondExtremes view.now position.now directions.now }
{
    match difference_extremes(view, position, directions) {
        None => true,
        Some(extremes) => 0 < extremes.lo || extremes.hi < 0,
    }
}
