//! The direction vectors of a dependence: if they are a product, a single one with the signs of each place; else one
//! after another.

ghost use Rattle.std.specs.Prelude.{◌≡◌, ◌≤◌, ◌++◌, [], ◌∷◌, length, map, OnOk, MatchOption};
ghost use Rattle.std.specs.List.{flat_map};
ghost use Rattle.ped_edges.specs.Rows.{direction_text, vectors_text, vector_text};
ghost use Rattle.ped_edges.specs.CodeSigns.{sign_of};

use crate::lists::{Shown, push_list};
use crate::products::are_product;
use crate::signs::place_signs;
use ped_base::{Bytes, NoMemory};
use ped_verdict::Vector;
use ped_views::Direction;

/// Adds vectors over this many loops.
pub(crate) fn push_vectors(
    out: &mut Bytes,
    loops: usize,
    vectors: &[Vector],
) -> Result<(), NoMemory>
    requires { loops ≤ 6 }
    ensures { OnOk result (out.new ≡ out.old ++ vectors_text loops vectors.now) }
{
    match only_one(vectors) {
        Some(vector) => push_vector(out, vector),
        None => push_several(out, loops, vectors),
    }
}

/// The vector, where it is the only one.
fn only_one(vectors: &[Vector]) -> Option<&Vector>
    ensures { MatchOption result (¬ (length vectors.now ≡ 1)) (λ vector. vectors.now ≡ vector.now ∷ []) }
{
    match vectors.split_first() {
        Some((first, rest)) => { if rest.is_empty() { Some(first) } else { None } }
        None => None,
    }
}

/// Adds vectors over this many loops, however many there are.
fn push_several(out: &mut Bytes, loops: usize, vectors: &[Vector]) -> Result<(), NoMemory>
    requires { loops ≤ 6 }
    ensures { OnOk result (out.new ≡ out.old ++ vectors_text loops vectors.now) }
{
    let signs = place_signs(loops, vectors);
    let places = &signs[..loops];
    if are_product(places, vectors) {
        push_list(out, places)
    } else {
        push_each(out, vectors)
    }
}

/// Adds vectors one after the other.
fn push_each(out: &mut Bytes, vectors: &[Vector]) -> Result<(), NoMemory>
    ensures { OnOk result (out.new ≡ out.old ++ flat_map (λ v. vector_text (map (λ d. d ∷ []) v)) vectors.now) }
{
    for vector in vectors {
        push_vector(out, vector)?;
    }
    Ok(())
}

/// Adds a vector, which has one sign at each place.
fn push_vector(out: &mut Bytes, vector: &Vector) -> Result<(), NoMemory>
    ensures { OnOk result (out.new ≡ out.old ++ vector_text (map (λ d. d ∷ []) vector.now)) }
{
    match vector.directions() {
        [a, b] => push_two(out, *a, *b),
        [a, b, c, d, e, f] => push_six(out, (*a, *b, *c), (*d, *e, *f)),
        _ => push_each_sign(out, vector),
    }
}

/// Adds a vector over two loops at once.
fn push_two(out: &mut Bytes, outer: Direction, inner: Direction) -> Result<(), NoMemory>
    ensures { OnOk result (out.new ≡ out.old ++ vector_text (map (λ d. d ∷ []) (outer ∷ inner ∷ []))) }
{
    out.extend_from_slice(&[b'(', sign(outer), b',', sign(inner), b')'])
}

/// Adds a vector over six loops at once.
fn push_six(
    out: &mut Bytes,
    outer: (Direction, Direction, Direction),
    inner: (Direction, Direction, Direction),
) -> Result<(), NoMemory>
    ensures { OnOk result (out.new ≡ out.old ++ vector_text (map (λ d. d ∷ [])
        (outer.0 ∷ outer.1 ∷ outer.2 ∷ inner.0 ∷ inner.1 ∷ inner.2 ∷ []))) }
{
    out.extend_from_slice(&[
        b'(',
        sign(outer.0),
        b',',
        sign(outer.1),
        b',',
        sign(outer.2),
        b',',
        sign(inner.0),
        b',',
        sign(inner.1),
        b',',
        sign(inner.2),
        b')',
    ])
}

/// Adds a vector sign by sign.
fn push_each_sign(out: &mut Bytes, vector: &Vector) -> Result<(), NoMemory>
    ensures { OnOk result (out.new ≡ out.old ++ vector_text (map (λ d. d ∷ []) vector.now)) }
{
    push_list(out, vector.directions())
}

/// The sign of a direction.
fn sign(direction: Direction) -> u8
    ensures { result ≡ sign_of direction }
{
    match direction {
        Direction::Before => b'<',
        Direction::Same => b'=',
        Direction::After => b'>',
    }
}

impl Shown for Direction {
    ghost text = { direction_text };

    fn push_to(&self, out: &mut Bytes) -> Result<(), NoMemory> {
        match self {
            Direction::Before => out.push(b'<'),
            Direction::Same => out.push(b'='),
            Direction::After => out.push(b'>'),
        }
    }
}
