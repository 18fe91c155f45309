//! Whether direction vectors are the product of their signs at each place.

ghost use Rattle.std.specs.Prelude.{◌≡◌, ◌≤◌, ◌<◌, ◌+◌, ◌++◌, [], ◌∷◌, length, map, IsTrue, ◌↔◌, MatchOption, if◌then◌else◌};
ghost use Rattle.std.specs.Cmp.Lexicographic.{pointwise};
ghost use Rattle.ped_edges.specs.Rows.{are_signs, product};
ghost use Rattle.ped_edges.specs.CodeSigns.{signs_of, front_of, begun_with, DontBegin};

use crate::signs::Signs;
use ped_verdict::Vector;
use ped_views::Direction;

/// The first directions of a vector over at most six loops.
#[derive(Clone, Copy)]
struct Front {
    len: usize,
    directions: [Direction; 6],
}

impl Front {
    fn empty() -> Front
        ensures len { result.len ≡ 0 }
        ensures value { front_of result ≡ [] }
    {
        Front {
            len: 0,
            directions: [Direction::Same; 6],
        }
    }

    /// This front with one more direction.
    fn with(self, direction: Direction) -> Front
        requires { self.len < 6 }
        ensures len { result.len ≡ self.len + 1 }
        ensures value { front_of result ≡ front_of self ++ direction ∷ [] }
    {
        let mut directions = self.directions;
        directions[self.len] = direction;
        Front {
            len: self.len + 1,
            directions,
        }
    }
}

/// Whether the vectors are all those with one of the signs of each place, in the order `<`, `=`, `>`.
pub(crate) fn are_product(places: &[Signs], vectors: &[Vector]) -> bool
    requires { length places.now ≤ 6 }
    ensures { result ≡ pointwise are_signs (product (map signs_of places.now)) vectors.now }
{
    match strip_product(Front::empty(), places, vectors) {
        Some(rest) => rest.is_empty(),
        None => false,
    }
}

/// The vectors after those that begin with the front and continue with one of the signs of each place; none where
/// these don't come first.
#[cycle(strip)]
fn strip_product<'a>(front: Front, places: &[Signs], vectors: &'a [Vector]) -> Option<&'a [Vector]>
    requires { front.len + length places.now ≤ 6 }
    ensures { let these = begun_with (front_of front) (map signs_of places.now) in
        MatchOption result (DontBegin these vectors.now) (λ rest. vectors.now ≡ these ++ rest.now) }
{
    let Some((first, further)) = places.split_first() else {
        return strip_vector(&front, vectors);
    };
    if further.is_empty() {
        return strip_last(front, *first, vectors);
    }
    let rest = strip_where(
        first.before,
        front.with(Direction::Before),
        further,
        vectors,
    )?;
    let rest = strip_where(first.same, front.with(Direction::Same), further, rest)?;
    strip_where(first.after, front.with(Direction::After), further, rest)
}

/// The vectors after such a product where its sign occurs at all, else all vectors.
#[cycle(strip)]
fn strip_where<'a>(
    stands: bool,
    front: Front,
    places: &[Signs],
    vectors: &'a [Vector],
) -> Option<&'a [Vector]>
    requires { front.len + length places.now ≤ 6 }
    ensures { let these = (if stands then begun_with (front_of front) (map signs_of places.now) else []) in
        MatchOption result (DontBegin these vectors.now) (λ rest. vectors.now ≡ these ++ rest.now) }
{
    if stands {
        strip_product(front, places, vectors)
    } else {
        Some(vectors)
    }
}

/// The vectors after those that are the front and one of the signs of the last place; none where these don't come first.
fn strip_last<'a>(front: Front, signs: Signs, vectors: &'a [Vector]) -> Option<&'a [Vector]>
    requires { front.len < 6 }
    ensures { let these = begun_with (front_of front) (signs_of signs ∷ []) in
        MatchOption result (DontBegin these vectors.now) (λ rest. vectors.now ≡ these ++ rest.now) }
{
    let rest = strip_one(signs.before, front.with(Direction::Before), vectors)?;
    let rest = strip_one(signs.same, front.with(Direction::Same), rest)?;
    strip_one(signs.after, front.with(Direction::After), rest)
}

/// The vectors after the front where its last sign occurs at all, else all vectors.
fn strip_one<'a>(stands: bool, front: Front, vectors: &'a [Vector]) -> Option<&'a [Vector]>
    requires { front.len ≤ 6 }
    ensures { let these = (if stands then begun_with (front_of front) [] else []) in
        MatchOption result (DontBegin these vectors.now) (λ rest. vectors.now ≡ these ++ rest.now) }
{
    if stands {
        strip_vector(&front, vectors)
    } else {
        Some(vectors)
    }
}

/// The vectors after the one that is the whole front; none where another or none comes first.
fn strip_vector<'a>(front: &Front, vectors: &'a [Vector]) -> Option<&'a [Vector]>
    requires { front.now.len ≤ 6 }
    ensures { let these = front_of front.now ∷ [] in
        MatchOption result (DontBegin these vectors.now) (λ rest. vectors.now ≡ these ++ rest.now) }
{
    match vectors.split_first() {
        Some((first, rest)) => {
            if is_front(front, first) {
                Some(rest)
            } else {
                None
            }
        }
        None => None,
    }
}

fn is_front(front: &Front, vector: &Vector) -> bool
    requires { front.now.len ≤ 6 }
    ensures { IsTrue result ↔ (vector.now ≡ front_of front.now) }
{
    vector.directions() == &front.directions[..front.len]
}
