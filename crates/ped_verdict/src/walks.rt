//! The vectors that subscripts in several indices exclude. One walk over the fronts of vectors asks all positions: the
//! first that excludes a front ends it, so nothing more is asked of the vectors with it.

ghost use Rattle.std.specs.Prelude.{◌≡◌, ◌≤◌, ◌<◌, ◌^◌, ◌↔◌, All, Any, [], length, IsTrue};
ghost use Rattle.ped_verdict.specs.Fronts as fronts;
ghost use Rattle.ped_verdict.specs.Marked.{AreAdded};
ghost use Rattle.ped_verdict.specs.Sights.{IsSightIn, AreSights, IsFree, Shuts, StaysOpen, OtherExcludes};

use crate::fronts::mark_front;
use crate::sights::{Sight, is_open, is_shut, occurs};
use crate::vectors::Vector;
use ped_bits::Row;
use ped_views::{Direction, PairView, Position};

/// Adds the vectors that Banerjee's test or the GCD test excludes at a usable position with subscripts in several
/// indices.
pub(crate) fn exclude_others(view: &PairView, sights: &[Sight], excluded: &mut Row)
    requires few { length view.now.loops ≤ 6 }
    requires sights { AreSights view.now (length view.now.positions) sights.now }
    requires wide { length excluded.old ≡ 3 ^ length view.now.loops }
    ensures { AreAdded
        (length view.now.loops)
        []
        (OtherExcludes view.now)
        excluded.old
        excluded.new }
{
    exclude_in(view, sights, Vector::empty(), excluded);
}

/// Adds the excluded vectors that begin with this front. It goes on to longer fronts only where some position leaves it
/// open which of these vectors it excludes. Those positions of which all loops that occur have their directions before
/// the front's last exclude none.
fn exclude_in(view: &PairView, sights: &[Sight], front: Vector, excluded: &mut Row)
    requires few { length view.now.loops ≤ 6 }
    requires sights { AreSights view.now (length view.now.positions) sights.now }
    requires front { length front ≤ length view.now.loops }
    requires passed { All (λ s. s.stage < length front → IsFree view.now s front) sights.now }
    requires wide { length excluded.old ≡ 3 ^ length view.now.loops }
    ensures { AreAdded
        (length view.now.loops)
        front
        (OtherExcludes view.now)
        excluded.old
        excluded.new }
{
    if any_shuts(view, sights, &front) {
        mark_front(view.loops.len(), &front, excluded);
    } else if any_stays_open(view, sights, &front) {
        let longer = front.with(Direction::Before);
        exclude_in(view, sights, longer, excluded);
        let longer = front.with(Direction::Same);
        exclude_in(view, sights, longer, excluded);
        let longer = front.with(Direction::After);
        exclude_in(view, sights, longer, excluded);
    }
}

/// Whether some position leaves it open which vectors with a front it excludes. The first that does so ends the search.
fn any_stays_open(view: &PairView, sights: &[Sight], front: &Vector) -> bool
    requires sights { All (IsSightIn view.now) sights.now }
    ensures { IsTrue result ↔ Any (StaysOpen view.now front.now) sights.now }
{
    for sight in sights {
        if stays_open(view, sight, front) {
            return true;
        }
    }
    false
}

/// Whether a position leaves it open which vectors with a front it excludes.
fn stays_open(view: &PairView, sight: &Sight, front: &Vector) -> bool
    requires { IsSightIn view.now sight.now }
    ensures { IsTrue result ↔ StaysOpen view.now front.now sight.now }
{
    let pair = &view.positions[sight.position];
    is_open(view, pair, sight, front)
}

/// Whether some position that is asked excludes a front. The first that does so ends the search.
fn any_shuts(view: &PairView, sights: &[Sight], front: &Vector) -> bool
    requires sights { All (IsSightIn view.now) sights.now }
    requires front { length front.now ≤ length view.now.loops }
    ensures { IsTrue result ↔ Any (Shuts view.now front.now) sights.now }
{
    for sight in sights {
        if shuts(view, sight, front) {
            return true;
        }
    }
    false
}

/// Whether a position is asked about a front, and excludes it.
fn shuts(view: &PairView, sight: &Sight, front: &Vector) -> bool
    requires sight { IsSightIn view.now sight.now }
    requires front { length front.now ≤ length view.now.loops }
    ensures { IsTrue result ↔ Shuts view.now front.now sight.now }
{
    let pair = &view.positions[sight.position];
    if is_asked(pair, front.len()) {
        return is_shut(view, pair, sight, front);
    }
    false
}

/// Whether a position is asked about fronts of this length: where their last loop occurs in it, and about the empty
/// front. Another loop doesn't change what it excludes.
fn is_asked(pair: &Position, loops: usize) -> bool
    requires { loops ≤ length pair.now.source.common }
    ensures { result ≡ fronts.is_asked pair.now loops }
{
    loops == 0 || occurs(pair, loops - 1)
}
