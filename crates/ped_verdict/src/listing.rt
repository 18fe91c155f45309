//! The possible vectors of a view as a list.

ghost use Rattle.std.specs.Prelude.{◌≤◌, length, IfOk};
ghost use Rattle.ped_views.specs.Vectors.{AreVectors};
ghost use Rattle.ped_verdict.specs.Dependence.{HasList};
ghost use Rattle.ped_verdict.specs.Marked.{AreMarked};

use crate::places::{vector_at, vector_from};
use crate::refining::possible_vectors;
use crate::vectors::Vector;
use ped_base::NoMemory;
use ped_bits::Row;
use ped_views::PairView;
use std::alloc::Global;

/// All vectors of a view that no position and no group excludes, in the lexicographic order `<`, `=`, `>`. It makes no
/// verdict and counts no test: it serves a question about a program that a session doesn't hold.
pub fn vectors_of(alloc: Global, view: &PairView) -> Result<Vec<Vector>, NoMemory>
    ensures { IfOk result (λ vectors. AreVectors view.now vectors.items) }
{
    let possible = possible_vectors(alloc, view)?;
    listed(alloc, view, &possible)
}

/// The possible vectors of a view, of which a row has the places, in their order.
pub(crate) fn listed(
    alloc: Global,
    view: &PairView,
    possible: &Row,
) -> Result<Vec<Vector>, NoMemory>
    requires { AreMarked view.now possible.now }
    ensures { IfOk result (λ vectors. AreVectors view.now vectors.items) }
{
    let loops = view.loops.len();
    let mut vectors = Vec::new(alloc);
    let mut vector = vector_at(loops, 0);
    let mut at = 0;
    for place in 0..possible.width() {
        if possible.get(place) {
            vector = vector_from(loops, vector, at, place);
            at = place;
            vectors.push(vector)?;
        }
    }
    Ok(vectors)
}

/// There is a list of the possible vectors of a view, of which a row has the places. It does nothing.
pub(crate) fn has_list(view: &PairView, possible: &Row)
    requires { AreMarked view.now possible.now }
    ensures few { length view.now.loops ≤ 6 }
    ensures list { HasList view.now }
{}
