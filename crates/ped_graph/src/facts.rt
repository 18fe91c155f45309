//! What is known of a pair of references without a test.

ghost use Rattle.std.specs.Prelude.{◌≡◌, ◌&&◌, ◌++◌, ◌∷◌, [], map, OnOk};
ghost use Rattle.ped_refs.specs.References.{comes_before};
ghost use Rattle.ped_refs.specs.Occurrences.{reference_of};
ghost use Rattle.ped_edges.specs.CodeEdges.{kind_of};
ghost use Rattle.ped_graph.specs.Held.{framed};
ghost use Rattle.ped_graph.specs.Dependences as Spec;
ghost use Rattle.ped_graph.specs.CodeFacts.{framed_of};
ghost use Rattle.ped_graph.specs.KnownProgram.{own_of};

use crate::own_facts::OwnFacts;
use crate::owners::common_owner;
use crate::rejections::rejecting_levels;
use crate::sides::common_depth;
use ped_base::NoMemory;
use ped_edges::Kind;
use ped_refs::{Occurrence, RefName};

/// What is known of a pair of references without a test.
#[derive(Clone, Copy)]
pub struct Facts {
    /// The source, by statement and number.
    pub source: (u32, u32),
    /// The sink, by statement and number.
    pub sink: (u32, u32),
    /// What both read or write.
    pub name: RefName,
    /// Which of them write.
    pub kind: Kind,
    /// Whether the source comes before the sink in text order.
    pub is_forward: bool,
    /// The level of the DO whose private copies both mean, 0 for none; none where they mean different ones.
    pub owner: Option<u8>,
    /// Whether constants alone decide that both references are reached.
    pub firm: bool,
    /// For each level whether its loop rejects the variable.
    pub rejecting: [bool; 6],
}

/// Adds the facts of a pair, of whose references this is known by themselves.
pub fn push_facts(
    all: &mut Vec<Facts>,
    source: &Occurrence,
    sink: &Occurrence,
    first: &OwnFacts,
    second: &OwnFacts,
) -> Result<(), NoMemory>
    ensures { OnOk result ((facts : Spec.Facts)
        → first.now ≡ own_of facts.constants facts.guards (reference_of source.now)
        → second.now ≡ own_of facts.constants facts.guards (reference_of sink.now)
        → map framed_of all.new.items ≡ map framed_of all.old.items ++ framed facts (reference_of source.now) (reference_of sink.now) ∷ []) }
{
    let common = common_depth(source.nest.as_slice(), sink.nest.as_slice());
    all.push(Facts {
        source: (source.statement, source.number),
        sink: (sink.statement, sink.number),
        name: source.name,
        kind: kind_of(source.writes, sink.writes),
        is_forward: comes_before(source, sink),
        owner: common_owner(first, second),
        firm: both(first.firm, second.firm),
        rejecting: rejecting_levels(&first.rejecting, common),
    })?;
    Ok(())
}

fn both(first: bool, second: bool) -> bool
    ensures { result ≡ (first && second) }
{
    first && second
}

/// The kind of a dependence by who writes.
fn kind_of(source_writes: bool, sink_writes: bool) -> Kind
    ensures { kind_of result ≡ Spec.kind_by source_writes sink_writes }
{
    match (source_writes, sink_writes) {
        (true, true) => Kind::Output,
        (true, false) => Kind::Flow,
        (false, _) => Kind::Anti,
    }
}

/// Whether the source comes before the sink in text order.
fn comes_before(source: &Occurrence, sink: &Occurrence) -> bool
    ensures { result ≡ comes_before (reference_of source.now) (reference_of sink.now) }
{
    source.statement < sink.statement
        || (source.statement == sink.statement && source.number < sink.number)
}
