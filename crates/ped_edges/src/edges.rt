//! Dependences between two references, as the tests find them and the user marks them.

ghost use Rattle.std.specs.Prelude.{◌≡◌, [], ◌∷◌, List, filter, not, MatchOption};
ghost use Rattle.ped_edges.specs.CodeEdges.{edge_of, mark_of};
ghost use Rattle.ped_edges.specs.Edges.{is_rejected};

use ped_refs::RefName;
use ped_verdict::Vector;

/// How the two references of a dependence use what they name (Allen and Kennedy, section 2.2.1).
#[derive(Clone, Copy, PartialEq, Eq)]
pub enum Kind {
    /// A write, and then a read.
    Flow,
    /// A read, and then a write.
    Anti,
    /// Two writes.
    Output,
}

/// What is known of a dependence (ParaScope).
#[derive(Clone, Copy, PartialEq, Eq)]
pub enum Mark {
    /// It is there.
    Proven,
    /// It may be there.
    Pending,
    /// The user has said that it isn't there.
    Rejected,
}

impl Mark {
    /// Whether the user has said that the dependence isn't there.
    pub fn is_rejected(self) -> bool
        ensures { result ≡ is_rejected (mark_of self) }
    {
        match self {
            Mark::Rejected => true,
            Mark::Proven | Mark::Pending => false,
        }
    }
}

/// A dependence between two references.
#[derive(Drop)]
pub struct Edge {
    /// The reference whose access comes first: the number of its statement, and its number there, from 1.
    pub source: (u32, u32),
    /// The reference whose access comes second, likewise.
    pub sink: (u32, u32),
    /// What both of them read or write.
    pub name: RefName,
    /// Which of them write.
    pub kind: Kind,
    /// The level of the loop that carries it, 1 for the outermost, and none where it is independent of loops.
    pub level: Option<u8>,
    /// The direction vectors that it may have over the loops around both references, in the order `<`, `=`, `>`.
    pub vectors: Vec<Vector>,
    /// The distance in iterations of each of these loops, none where it is unknown.
    pub distances: Vec<Option<i128>>,
    /// What is known of it.
    pub mark: Mark,
}

/// A dependence as its row shows it, of which others keep the parts.
#[derive(Clone, Copy)]
pub struct ShownEdge<'a> {
    /// The reference whose access comes first: the number of its statement, and its number there, from 1.
    pub source: (u32, u32),
    /// The reference whose access comes second, likewise.
    pub sink: (u32, u32),
    /// What both of them read or write.
    pub name: &'a RefName,
    /// Which of them write.
    pub kind: Kind,
    /// The level of the loop that carries it, 1 for the outermost, and none where it is independent of loops.
    pub level: Option<u8>,
    /// The direction vectors that it may have over the loops around both references, in the order `<`, `=`, `>`.
    pub vectors: &'a [Vector],
    /// The distance in iterations of each of these loops, none where it is unknown.
    pub distances: &'a [Option<i128>],
    /// What is known of it.
    pub mark: Mark,
}

/// Keeps the dependences that the user hasn't rejected.
pub fn keep_unrejected(edges: &mut Vec<Edge>)
    ensures { edges.new.items ≡ filter (λ e. not (is_rejected (edge_of e).mark)) edges.old.items }
{
    edges.retain(|edge| !edge.mark.is_rejected());
}

/// The first of these dependences, where there is one.
pub fn first_of(edges: Vec<Edge>) -> Option<Edge>
    ensures { MatchOption result (edges.items ≡ []) (λ e. (rest : List Edge) × (edges.items ≡ e ∷ rest)) }
{
    let mut edges = edges;
    if edges.is_empty() {
        return None;
    }
    Some(edges.swap_remove(0))
}
