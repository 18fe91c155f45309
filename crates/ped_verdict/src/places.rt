//! Direction vectors as numbers: their places in the lexicographic order `<`, `=`, `>`, from 0 on.

ghost use Rattle.std.specs.Prelude.{◌≡◌, ◌+◌, ◌<◌, ◌≤◌, ◌^◌, length};
ghost use Rattle.ped_verdict.specs.Marked as Spec;

use crate::vectors::Vector;
use ped_views::Direction;

/// How many vectors there are over this many loops: 3^n.
pub(crate) fn vector_count(loops: usize) -> usize
    requires { loops ≤ 6 }
    ensures { result ≡ 3 ^ loops }
{
    let mut count = 1;
    for _ in 0..loops {
        count *= 3;
    }
    count
}

/// The place of a vector among all over as many loops.
pub(crate) fn place_of(vector: &[Direction]) -> usize
    requires { length vector.now ≤ 6 }
    ensures value { result ≡ Spec.place_of vector.now }
    ensures small { result < 3 ^ length vector.now }
{
    let mut place = 0;
    for direction in vector {
        place = 3 * place + digit(*direction);
    }
    place
}

/// The vector over this many loops at a place.
pub(crate) fn vector_at(loops: usize, place: usize) -> Vector
    requires few { loops ≤ 6 }
    requires place { place < 3 ^ loops }
    ensures length { length result ≡ loops }
    ensures place { Spec.place_of result ≡ place }
{
    if loops == 0 {
        Vector::empty()
    } else {
        vector_at(loops - 1, place / 3).with(direction_at(place % 3))
    }
}

/// The vector at a place, from the one at a place before it: a step where it is the next one.
pub(crate) fn vector_from(loops: usize, vector: Vector, at: usize, place: usize) -> Vector
    requires few { loops ≤ 6 }
    requires length { length vector ≡ loops }
    requires at { Spec.place_of vector ≡ at }
    requires order { at ≤ place }
    requires place { place < 3 ^ loops }
    ensures length { length result ≡ loops }
    ensures place { Spec.place_of result ≡ place }
{
    if place - at == 1 {
        following(vector)
    } else {
        vector_at(loops, place)
    }
}

/// The next vector over as many loops, or the first where there is no next one.
fn following(vector: Vector) -> Vector
    ensures length { length result ≡ length vector }
    ensures next { Spec.place_of vector + 1 < 3 ^ length vector → Spec.place_of result ≡ Spec.place_of vector + 1 }
{
    if vector.len() == 0 {
        return vector;
    }
    let front = vector.without_last();
    match vector.last() {
        Direction::Before => front.with(Direction::Same),
        Direction::Same => front.with(Direction::After),
        Direction::After => following(front).with(Direction::Before),
    }
}

fn digit(direction: Direction) -> usize
    ensures value { result ≡ Spec.digit direction }
    ensures small { result ≤ 2 }
{
    match direction {
        Direction::Before => 0,
        Direction::Same => 1,
        Direction::After => 2,
    }
}

/// The direction with this place in the order `<`, `=`, `>`.
pub(crate) fn direction_at(digit: usize) -> Direction
    requires { digit ≤ 2 }
    ensures { Spec.digit result ≡ digit }
{
    match digit {
        0 => Direction::Before,
        1 => Direction::Same,
        _ => Direction::After,
    }
}
