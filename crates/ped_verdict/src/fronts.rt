//! Marks all vectors with a front, or with a direction in one loop.

ghost use Rattle.std.specs.Prelude.{◌≡◌, ◌+◌, ◌*◌, ◌<◌, ◌≤◌, ◌^◌, [], length, IsTrue};
ghost use Rattle.ped_views.specs.Excluded.{direction_at as spec_direction_at};
ghost use Rattle.ped_verdict.specs.Marked.{AreAdded, AreSet, Each, chosen};

use crate::places::{direction_at, place_of, vector_count};
use crate::vectors::Vector;
use ped_bits::Row;
use ped_views::Direction;

/// Marks all vectors over this many loops that begin with a front.
pub(crate) fn mark_front(loops: usize, front: &Vector, row: &mut Row)
    requires few { loops ≤ 6 }
    requires front { length front.now ≤ loops }
    requires wide { length row.old ≡ 3 ^ loops }
    ensures { AreAdded loops front.now Each row.old row.new }
{
    let behind = vector_count(loops - front.len());
    mark_behind(place_of(front.directions()), behind, row);
}

/// Marks the vectors that begin with the front at this place, where so many begin with each front.
fn mark_behind(front: usize, behind: usize, row: &mut Row)
    requires front { front < 729 }
    requires behind { behind ≤ 729 }
    requires room { front * behind + behind ≤ length row.old }
    ensures { AreSet (front * behind) (front * behind + behind) row.old row.new }
{
    let first = first_place(front, behind);
    for place in first..first + behind {
        row.set(place);
    }
}

/// The first place of so many that begin with the front at this place.
fn first_place(front: usize, behind: usize) -> usize
    requires front { front < 729 }
    requires behind { behind ≤ 729 }
    ensures value { result ≡ front * behind }
    ensures small { result ≤ 531441 }
{
    front * behind
}

/// Marks all vectors over this many loops that have a direction in the loop at a place for which one of three
/// answers says so. It goes over the fronts up to that loop.
pub(crate) fn mark_directions(
    loops: usize,
    place: usize,
    before: bool,
    same: bool,
    after: bool,
    row: &mut Row,
)
    requires few { loops ≤ 6 }
    requires place { place < loops }
    requires wide { length row.old ≡ 3 ^ loops }
    ensures { AreAdded
        loops
        []
        (λ vector. IsTrue (chosen before same after (spec_direction_at vector place)))
        row.old
        row.new }
{
    let behind = vector_count(loops - 1 - place);
    for front in 0..vector_count(place + 1) {
        if is_chosen(direction_at(front % 3), before, same, after) {
            mark_behind(front, behind, row);
        }
    }
}

/// The one of three answers that is for a direction.
fn is_chosen(direction: Direction, before: bool, same: bool, after: bool) -> bool
    ensures { result ≡ chosen before same after direction }
{
    match direction {
        Direction::Before => before,
        Direction::Same => same,
        Direction::After => after,
    }
}
