//! The loops that reject a variable's dependences (ParaScope).

ghost use Rattle.std.specs.Prelude.{◌≡◌, ◌<◌, ℕ, List, length, slice_get};
ghost use Rattle.ped_base.specs.Lists.{is_among};
ghost use Rattle.ped_tree.specs.Nests as Nests;
ghost use Rattle.ped_refs.specs.References.{Reference};
ghost use Rattle.ped_refs.specs.Loops.{loop_of, nest_of};
ghost use Rattle.ped_refs.specs.Occurrences.{name_text};
ghost use Rattle.ped_graph.specs.Marks as Marks;
ghost use Rattle.ped_graph.specs.Held as Held;
ghost use Rattle.ped_graph.specs.KnownProgram.{rejecting_places};

use crate::names::has_name;
use ped_refs::{Loop, RefName};

/// For each of six places whether the loop there rejects the variable.
pub fn rejecting_places(nest: &[Loop], name: &RefName) -> [bool; 6]
    ensures { result ≡ rejecting_places (name_text name.now) (nest_of nest.now) }
{
    [
        rejects_at(nest, name, 0),
        rejects_at(nest, name, 1),
        rejects_at(nest, name, 2),
        rejects_at(nest, name, 3),
        rejects_at(nest, name, 4),
        rejects_at(nest, name, 5),
    ]
}

/// Whether the loop at a place, from 0, rejects the variable.
fn rejects_at(nest: &[Loop], name: &RefName, place: usize) -> bool
    ensures { result ≡ Marks.rejects (name_text name.now) (slice_get (nest_of nest.now) place) }
{
    let Some((l, others)) = nest.split_first() else {
        return false;
    };
    if place == 0 {
        return rejects(l, name);
    }
    rejects_at(others, name, place - 1)
}

/// For each of the six levels that there may be, whether its loop rejects the variable of a pair, by the places that
/// do so around the source, of which this many loops are common.
pub fn rejecting_levels(places: &[bool; 6], common: usize) -> [bool; 6]
    ensures { (source sink : Reference) → places.now ≡ rejecting_places source.access.name source.nest
        → common ≡ length (Nests.common_nest source.nest sink.nest) → result ≡ Held.rejecting_levels source sink }
{
    [
        rejects_within(places, common, 0),
        rejects_within(places, common, 1),
        rejects_within(places, common, 2),
        rejects_within(places, common, 3),
        rejects_within(places, common, 4),
        rejects_within(places, common, 5),
    ]
}

/// Whether the loop at a place is common and rejects the variable.
fn rejects_within(places: &[bool; 6], common: usize, place: usize) -> bool
    requires { place < 6 }
    ensures { (x : List ℕ) (source sink : List Nests.Loop) → places.now ≡ rejecting_places x source
        → common ≡ length (Nests.common_nest source sink) → result ≡ Marks.rejects x (slice_get (Nests.common_nest source sink) place) }
{
    if place < common {
        return places[place];
    }
    false
}

/// Whether a loop rejects the variable.
fn rejects(l: &Loop, name: &RefName) -> bool
    ensures { result ≡ is_among (name_text name.now) (loop_of l.now).head.rejected }
{
    has_name(l.statement.rejected.as_slice(), name)
}
