//! All ordered pairs of references. Only references with the same name and the same outermost DO can pair.
//! So a table of these groups gives the sinks of each source, and no pair without a write is visited.

ghost use Rattle.std.specs.Prelude.{◌≡◌, ◌++◌, Some, map, length, IfOk, OnOk, if◌then◌else◌};
ghost use Rattle.std.specs.List.{All};
ghost use Rattle.ped_refs.specs.References.{pairs};
ghost use Rattle.ped_refs.specs.Occurrences.{reference_of, references_of, pair_at, IsWithin};
ghost use Rattle.ped_refs.specs.Groups.{PlainGroup, is_same_group, looped_group};
ghost use Rattle.ped_refs.specs.Grouping.{AreGrouped, is_this, pair_of, places_at, sinks_at, with_place};

use crate::groups::{Group, group_of};
use crate::occurring::Occurrence;
use indexmap::IndexMap;
use ped_base::NoMemory;
use std::alloc::Global;

/// An ordered pair of references, by their places in a list, from 0.
#[derive(Clone, Copy, PartialEq, Eq)]
pub struct Pair {
    /// The place of the source.
    pub source: usize,
    /// The place of the sink.
    pub sink: usize,
}

/// The places of the references of a group, in text order.
#[derive(Drop)]
struct Members {
    /// All of them.
    all: Vec<usize>,
    /// Those that write.
    writes: Vec<usize>,
}

/// All ordered pairs of these references, in the order of the sources and then of the sinks. A pair is two places of
/// the list.
pub fn listed_pairs(alloc: Global, found: &[Occurrence]) -> Result<Vec<Pair>, NoMemory>
    ensures pairs { IfOk result (λ listed. map (pair_at (references_of found.now)) listed.items ≡ map Some (pairs (references_of found.now))) }
    ensures within { IfOk result (λ listed. All (IsWithin (length found.now)) listed.items) }
{
    let groups = groups_of(alloc, found)?;
    let mut listed = Vec::new(alloc);
    for (source, occurrence) in found.iter().enumerate() {
        add_pairs(&mut listed, source, sinks_of(&groups, occurrence))?;
    }
    Ok(listed)
}

/// Adds the pairs of a source with these sinks.
fn add_pairs(listed: &mut Vec<Pair>, source: usize, sinks: &[usize]) -> Result<(), NoMemory>
    ensures { OnOk result (listed.new.items ≡ listed.old.items ++ map (pair_of source) sinks.now) }
{
    for sink in sinks {
        listed.push(Pair {
            source,
            sink: *sink,
        })?;
    }
    Ok(())
}

/// The places of the sinks of a source: all of its group where it writes, else what writes.
fn sinks_of<'a>(groups: &'a IndexMap<Group, Members>, source: &Occurrence) -> &'a [usize]
    ensures { result.now ≡ sinks_at groups.now source.now.writes (looped_group (reference_of source.now)) }
{
    let Some(group) = group_of(source) else {
        return &[];
    };
    match groups.get(&group) {
        Some(members) => members.sinks(source.writes),
        None => &[],
    }
}

/// The groups of these references, each with the places of its references.
fn groups_of(alloc: Global, found: &[Occurrence]) -> Result<IndexMap<Group, Members>, NoMemory>
    ensures { IfOk result (AreGrouped (references_of found.now)) }
{
    let mut groups = IndexMap::new(alloc);
    for (place, occurrence) in found.iter().enumerate() {
        add_place(alloc, &mut groups, place, occurrence)?;
    }
    Ok(groups)
}

/// Adds the place of a reference to its group, where it has one.
fn add_place(
    alloc: Global,
    groups: &mut IndexMap<Group, Members>,
    place: usize,
    occurrence: &Occurrence,
) -> Result<(), NoMemory>
    ensures { OnOk result ((other : PlainGroup) → places_at groups.new other
        ≡ (if is_this (looped_group (reference_of occurrence.now)) other then with_place (places_at groups.old other) place occurrence.now.writes else places_at groups.old other)) }
{
    match group_of(occurrence) {
        Some(group) => add_to_group(alloc, groups, group, place, occurrence.writes),
        None => Ok(()),
    }
}

/// Adds a place to a group.
fn add_to_group(
    alloc: Global,
    groups: &mut IndexMap<Group, Members>,
    group: Group,
    place: usize,
    writes: bool,
) -> Result<(), NoMemory>
    ensures { OnOk result ((other : PlainGroup) → places_at groups.new other
        ≡ (if is_same_group group other then with_place (places_at groups.old other) place writes else places_at groups.old other)) }
{
    let members = groups.entry(group)?.or_insert(Members::new(alloc));
    members.add(place, writes)
}

impl Members {
    ghost use Rattle.std.specs.Prelude.{[]};
    ghost use Rattle.ped_refs.specs.Grouping.{places_of, sinks_in};

    /// No places, which take no memory.
    fn new(alloc: Global) -> Members
        ensures { places_of result ≡ record { all = []; writes = [] } }
    {
        Members {
            all: Vec::new(alloc),
            writes: Vec::new(alloc),
        }
    }

    /// Adds a place, of a reference that writes or reads.
    fn add(&mut self, place: usize, writes: bool) -> Result<(), NoMemory>
        ensures { OnOk result (places_of self.new ≡ with_place (places_of self.old) place writes) }
    {
        self.all.push(place)?;
        if writes {
            self.writes.push(place)?;
        }
        Ok(())
    }

    /// The sinks of a source: all places where it writes, else those that write.
    fn sinks(&self, writes: bool) -> &[usize]
        ensures { result.now ≡ sinks_in writes (places_of self.now) }
    {
        if writes { &self.all } else { &self.writes }
    }
}
