//! How many ordered pairs of references there are. They are counted without being made. Only references with the
//! same name and the same outermost DO can pair. So a table of these groups gives in one pass how many pairs each
//! reference adds.

ghost use Rattle.std.specs.Prelude.{◌≡◌, ◌+◌, ◌^◌, ◌<◌, ◌≤◌, length, IfOk, OnOk, MatchOption, if◌then◌else◌};
ghost use Rattle.ped_tree.specs.Tree.{ProgramTree};
ghost use Rattle.ped_refs.specs.References.{references, pair_count};
ghost use Rattle.ped_refs.specs.PairLimit.{most_pairs, is_within_pair_limit, IsFirstBeyond};
ghost use Rattle.ped_refs.specs.ListedReferences.{AreInOrder, AreReferences, AreOfProgram};
ghost use Rattle.ped_refs.specs.Tallies as Spec;
ghost use Rattle.ped_refs.specs.Groups.{PlainGroup, group, is_same_group};
ghost use Rattle.ped_refs.specs.Tallies.{AreCounted, tally_at};

use crate::groups::Group;
use crate::references::{RefName, Refs};
use indexmap::IndexMap;
use ped_base::NoMemory;
use std::alloc::Global;

/// The greatest number of ordered pairs that a program may have.
pub const MOST_PAIRS: u64 = 200_000;

/// How many references of a group there are, and how many of them write.
#[derive(Clone, Copy)]
struct Tally {
    references: u64,
    writes: u64,
}

/// How many ordered pairs of references the program has whose references these are. A pair has one name, a write among
/// its two, and a DO around both. They were counted when the references were listed.
pub fn pairs(refs: &Refs) -> u64
    ensures { (tree : ProgramTree) → AreReferences tree refs.now → result ≡ pair_count (references tree) }
{
    refs.pairs
}

/// Counts the ordered pairs of references in a list. The time is linear in the number of references.
pub(crate) fn count_pairs(alloc: Global, refs: &Refs) -> Result<u64, NoMemory>
    requires { AreOfProgram refs.now }
    ensures { IfOk result (λ n. (tree : ProgramTree) → AreInOrder tree refs.now → n ≡ pair_count (references tree)) }
{
    let mut groups = IndexMap::new(alloc);
    let mut total = 0;
    for i in 0..refs.items.len() {
        total = count_next(&mut groups, total, refs, i)?;
    }
    Ok(total)
}

/// Whether the program whose references these are has no more ordered pairs than a program may have. These are
/// 200,000.
pub fn within_limit(refs: &Refs) -> bool
    ensures { (tree : ProgramTree) → AreReferences tree refs.now → result ≡ is_within_pair_limit (references tree) }
{
    refs.pairs <= MOST_PAIRS
}

/// The first statement at which the ordered pairs among the references so far are more than a program may
/// have, none where there are never too many. Where there is one, the time is linear in the number of references.
pub fn first_beyond_limit(alloc: Global, refs: &Refs) -> Result<Option<u32>, NoMemory>
    requires { AreOfProgram refs.now }
    ensures { IfOk result (λ first. (tree : ProgramTree) → AreReferences tree refs.now
        → MatchOption first (pair_count (references tree) ≤ most_pairs) (λ number. IsFirstBeyond (references tree) number)) }
{
    if within_limit(refs) {
        return Ok(None);
    }
    let mut groups = IndexMap::new(alloc);
    let mut total = 0;
    for i in 0..refs.items.len() {
        total = count_next(&mut groups, total, refs, i)?;
        if total > MOST_PAIRS {
            return Ok(Some(refs.items.as_slice()[i].statement));
        }
    }
    Ok(None)
}

/// Counts the reference at a place, where those before it are counted and make `total` pairs: the number of
/// pairs with it.
fn count_next(
    groups: &mut IndexMap<Group, Tally>,
    total: u64,
    refs: &Refs,
    i: usize,
) -> Result<u64, NoMemory>
    requires listed { AreOfProgram refs.now }
    requires within { i < length refs.now.items }
    requires counted { AreCounted refs.now i groups.old total }
    ensures { IfOk result (λ sum. AreCounted refs.now (i + 1) groups.new sum) }
{
    let reference = refs.items.as_slice()[i];
    let outer = refs.outer.as_slice()[i];
    if outer == 0 {
        return Ok(total);
    }
    let tally = tally_of(groups, reference.name, outer);
    put(
        groups,
        reference.name,
        outer,
        with_reference(tally, reference.writes),
    )?;
    Ok(total + pairs_with(tally, reference.writes))
}

/// What was counted of the group with this name and this outermost DO.
fn tally_of(groups: &IndexMap<Group, Tally>, name: RefName, outer: u32) -> Tally
    ensures { result ≡ tally_at groups.now (group name outer) }
{
    let group = Group { name, outer };
    match groups.get(&group) {
        Some(tally) => *tally,
        None => Tally {
            references: 0,
            writes: 0,
        },
    }
}

/// Puts what was counted of the group with this name and this outermost DO.
fn put(
    groups: &mut IndexMap<Group, Tally>,
    name: RefName,
    outer: u32,
    tally: Tally,
) -> Result<(), NoMemory>
    ensures { OnOk result ((other : PlainGroup) → tally_at groups.new other
        ≡ (if is_same_group (group name outer) other then tally else tally_at groups.old other)) }
{
    groups.insert(Group { name, outer }, tally)?;
    Ok(())
}

/// A tally with one more reference.
fn with_reference(tally: Tally, writes: bool) -> Tally
    requires references { tally.references < 2 ^ 32 }
    requires writes { tally.writes < 2 ^ 32 }
    ensures { result ≡ Spec.with_reference tally writes }
{
    Tally {
        references: tally.references + 1,
        writes: if writes {
            tally.writes + 1
        } else {
            tally.writes
        },
    }
}

/// How many ordered pairs one more reference makes with itself and those of a tally.
fn pairs_with(tally: Tally, writes: bool) -> u64
    requires references { tally.references < 2 ^ 32 }
    requires writes { tally.writes < 2 ^ 32 }
    ensures { result ≡ Spec.pairs_with tally writes }
{
    if writes {
        2 * tally.references + 1
    } else {
        2 * tally.writes
    }
}
