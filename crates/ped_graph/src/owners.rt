//! The DO loops whose private copies references access (ParaScope).

ghost use Rattle.std.specs.Prelude.{◌≡◌, ◌≤◌, Option, length, option_map};
ghost use Rattle.ped_base.specs.Lists.{is_among};
ghost use Rattle.ped_tree.specs.Nests as Nests;
ghost use Rattle.ped_refs.specs.Loops.{loop_of, nest_of};
ghost use Rattle.ped_refs.specs.References.{Reference, innermost_private, private_loop};
ghost use Rattle.ped_refs.specs.Occurrences.{name_text};
ghost use Rattle.ped_graph.specs.Owners as Owners;
ghost use Rattle.ped_graph.specs.Held as Held;

use crate::names::has_name;
use crate::own_facts::OwnFacts;
use ped_refs::{Loop, RefName};

/// The level of the DO whose private copies both references mean: 0 where neither is private, and none where they
/// mean different ones.
pub fn common_owner(first: &OwnFacts, second: &OwnFacts) -> Option<u8>
    ensures { (source sink : Reference) → first.now.owner ≡ option_map (λ l. l.number) (private_loop source)
        → second.now.owner ≡ option_map (λ l. l.number) (private_loop sink)
        → first.now.level ≡ Owners.owner_level source → result ≡ Held.common_owner source sink }
{
    if is_same_owner(first.owner, second.owner) {
        Some(first.level)
    } else {
        None
    }
}

/// The statement number of the innermost loop that names the variable in PRIVATE.
pub fn owner_number(nest: &[Loop], name: &RefName) -> Option<u32>
    ensures { result ≡ option_map (λ l. l.number) (innermost_private (name_text name.now) (nest_of nest.now)) }
{
    let (l, others) = nest.split_first()?;
    match owner_number(others, name) {
        Some(number) => Some(number),
        None => {
            if is_private(l, name) {
                Some(l.number)
            } else {
                None
            }
        }
    }
}

/// The level of the innermost loop that names the variable in PRIVATE, 0 where none does.
pub fn private_level(nest: &[Loop], name: &RefName) -> u8
    requires { length nest.now ≤ 6 }
    ensures level { result ≡ Owners.private_level (name_text name.now) (nest_of nest.now) }
    ensures few { result ≤ length nest.now }
{
    let Some((l, others)) = nest.split_first() else {
        return 0;
    };
    let inside = private_level(others, name);
    if inside > 0 {
        return inside + 1;
    }
    if is_private(l, name) { 1 } else { 0 }
}

/// Whether a loop names the variable in PRIVATE.
fn is_private(l: &Loop, name: &RefName) -> bool
    ensures { result ≡ is_among (name_text name.now) (loop_of l.now).head.private }
{
    has_name(l.statement.private.as_slice(), name)
}

/// Whether both are one DO, or none.
fn is_same_owner(number: Option<u32>, other: Option<u32>) -> bool
    ensures { (l m : Option Nests.Loop) → number ≡ option_map (λ x. x.number) l → other ≡ option_map (λ x. x.number) m
        → result ≡ Owners.is_same_owner l m }
{
    match number {
        Some(number) => match other {
            Some(other) => number == other,
            None => false,
        },
        None => other.is_none(),
    }
}
