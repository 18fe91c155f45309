//! The signs that direction vectors have at each place.

ghost use Rattle.std.specs.Prelude.{◌≡◌, ◌≤◌, ◌++◌, take, map, OnOk};
ghost use Rattle.std.specs.List.{list_any};
ghost use Rattle.ped_views.specs.Excluded as excluded;
ghost use Rattle.ped_edges.specs.Rows.{all_signs, same_direction, signs_at, signs_text};
ghost use Rattle.ped_edges.specs.CodeSigns.{signs_of};

use crate::lists::Shown;
use ped_base::{Bytes, NoMemory};
use ped_verdict::Vector;
use ped_views::Direction;

/// Which of the three signs are at a place (Allen and Kennedy, section 2.2.4).
#[derive(Clone, Copy)]
pub(crate) struct Signs {
    pub(crate) before: bool,
    pub(crate) same: bool,
    pub(crate) after: bool,
}

impl Signs {
    /// The signs that the vectors have at a place, which counts from 0.
    fn at(vectors: &[Vector], place: usize) -> Signs
        ensures { signs_of result ≡ signs_at vectors.now place }
    {
        Signs {
            before: has(vectors, place, Direction::Before),
            same: has(vectors, place, Direction::Same),
            after: has(vectors, place, Direction::After),
        }
    }
}

/// The signs of this many places, at the front of six.
pub(crate) fn place_signs(places: usize, vectors: &[Vector]) -> [Signs; 6]
    requires { places ≤ 6 }
    ensures { map signs_of (take places result) ≡ all_signs places vectors.now }
{
    let mut signs = [Signs {
        before: false,
        same: false,
        after: false,
    }; 6];
    for place in 0..places {
        signs[place] = Signs::at(vectors, place);
    }
    signs
}

/// Whether a vector has this direction at the place.
fn has(vectors: &[Vector], place: usize, direction: Direction) -> bool
    ensures { result ≡ list_any (λ v. same_direction direction (excluded.direction_at v place)) vectors.now }
{
    for vector in vectors {
        if is_same(direction, direction_at(vector, place)) {
            return true;
        }
    }
    false
}

fn is_same(a: Direction, b: Direction) -> bool
    ensures { result ≡ same_direction a b }
{
    a == b
}

/// The direction of a vector at a place, `=` after its end.
fn direction_at(vector: &Vector, place: usize) -> Direction
    ensures { result ≡ excluded.direction_at vector.now place }
{
    match vector.directions().get(place) {
        Some(direction) => *direction,
        None => Direction::Same,
    }
}

impl Shown for Signs {
    ghost text = { λ s. signs_text (signs_of s) };

    fn push_to(&self, out: &mut Bytes) -> Result<(), NoMemory> {
        match (self.before, self.same, self.after) {
            (true, true, true) => out.push(b'*'),
            (true, true, false) => out.extend_from_slice(b"<="),
            (true, false, true) => out.extend_from_slice(b"<>"),
            (true, false, false) => out.push(b'<'),
            (false, true, true) => out.extend_from_slice(b">="),
            (false, true, false) => out.push(b'='),
            (false, false, true) => out.push(b'>'),
            (false, false, false) => Ok(()),
        }
    }
}
