//! The row of a dependence: source, sink, variable, kind, level, vectors, distances and mark.

ghost use Rattle.std.specs.Prelude.{◌≡◌, ◌≤◌, ◌++◌, [], ◌∷◌, length, IfOk, IfSome, OnOk};
ghost use Rattle.std.specs.Fmt.{signed_decimal};
ghost use Rattle.ped_edges.specs.Rows as shown;
ghost use Rattle.ped_edges.specs.CodeEdges.{edge_of, edge_shown, kind_of, mark_of, HasAtMostSixLoops};
ghost use Rattle.ped_refs.specs.Occurrences.{name_text};

use crate::digits::push_digits;
use crate::edges::{Edge, Kind, Mark, ShownEdge};
use crate::lists::{Shown, push_list};
use crate::places::push_place;
use crate::vectors::push_vectors;
use ped_base::{Bytes, NoMemory, push_signed};
use ped_refs::RefName;
use std::alloc::Global;

impl Edge {
    /// The row of the dependence in the pane, without a line end: source, sink, variable, kind, level, vectors,
    /// distances and mark, with a blank between two.
    pub fn row(&self, alloc: Global) -> Result<Bytes, NoMemory>
        requires { HasAtMostSixLoops self.now }
        ensures { IfOk result (λ row. row ≡ shown.edge_row (edge_of self.now)) }
    {
        let mut row = Bytes::new(alloc);
        self.push_row(&mut row)?;
        Ok(row)
    }

    /// Adds the row. If memory runs out, the text ends somewhere in the row.
    pub fn push_row(&self, out: &mut Bytes) -> Result<(), NoMemory>
        requires { HasAtMostSixLoops self.now }
        ensures { OnOk result (out.new ≡ out.old ++ shown.edge_row (edge_of self.now)) }
    {
        let shown = ShownEdge {
            source: self.source,
            sink: self.sink,
            name: &self.name,
            kind: self.kind,
            level: self.level,
            vectors: &self.vectors,
            distances: &self.distances,
            mark: self.mark,
        };
        push_row(out, &shown)
    }
}

/// Adds the row of a dependence: source, sink, variable, kind, level, vectors, distances and mark, with a blank between
/// two. If memory runs out, the text ends somewhere in the row.
pub fn push_row(out: &mut Bytes, edge: &ShownEdge<'_>) -> Result<(), NoMemory>
    requires { length edge.now.distances.now ≤ 6 }
    ensures { OnOk result (out.new ≡ out.old ++ shown.edge_row (edge_shown edge.now)) }
{
    push_place(out, edge.source)?;
    push_place(out, edge.sink)?;
    push_name(out, edge.name)?;
    push_kind_word(out, edge.kind)?;
    push_level(out, edge.level)?;
    out.push(b' ')?;
    push_vectors(out, edge.distances.len(), edge.vectors)?;
    out.push(b' ')?;
    push_distances(out, edge.distances)?;
    push_mark(out, edge.mark)
}

fn push_name(out: &mut Bytes, name: &RefName) -> Result<(), NoMemory>
    ensures { OnOk result (out.new ≡ out.old ++ name_text name.now) }
{
    match name {
        RefName::Named(name) => out.extend_from_slice(name.as_bytes()),
        RefName::In => out.extend_from_slice(b"(IN)"),
        RefName::Out => out.extend_from_slice(b"(OUT)"),
    }
}

/// Adds the word for the kind of a dependence between two blanks.
fn push_kind_word(out: &mut Bytes, kind: Kind) -> Result<(), NoMemory>
    ensures { OnOk result (out.new ≡ out.old ++ 32 ∷ (shown.kind_text (kind_of kind) ++ 32 ∷ [])) }
{
    match kind {
        Kind::Flow => out.extend_from_slice(b" flow "),
        Kind::Anti => out.extend_from_slice(b" anti "),
        Kind::Output => out.extend_from_slice(b" output "),
    }
}

/// Adds the word for the kind of a dependence. If memory runs out, the text ends somewhere in the word.
pub fn push_kind(out: &mut Bytes, kind: Kind) -> Result<(), NoMemory>
    ensures { OnOk result (out.new ≡ out.old ++ shown.kind_text (kind_of kind)) }
{
    match kind {
        Kind::Flow => out.extend_from_slice(b"flow"),
        Kind::Anti => out.extend_from_slice(b"anti"),
        Kind::Output => out.extend_from_slice(b"output"),
    }
}

/// Adds the level of the loop that carries a dependence, and a dash where none does. If memory runs out, the text ends
/// somewhere in the level.
pub fn push_level(out: &mut Bytes, level: Option<u8>) -> Result<(), NoMemory>
    ensures { OnOk result (out.new ≡ out.old ++ shown.level_text level) }
{
    match level {
        Some(level) => push_digits(out, u64::from(level)),
        None => out.push(b'-'),
    }
}

/// Adds the distances. Those of two loops are added at once where each has one character.
fn push_distances(out: &mut Bytes, distances: &[Option<i128>]) -> Result<(), NoMemory>
    ensures { OnOk result (out.new ≡ out.old ++ shown.distances_text distances.now) }
{
    if let [outer, inner] = distances {
        if let (Some(first), Some(second)) = (character(*outer), character(*inner)) {
            return out.extend_from_slice(&[b'(', first, b',', second, b')']);
        }
    }
    push_list(out, distances)
}

/// The text of a distance, where it is one character.
fn character(distance: Option<i128>) -> Option<u8>
    ensures { IfSome result (λ c. shown.distance_text distance ≡ c ∷ []) }
{
    match distance {
        Some(distance) => digit(distance),
        None => Some(b'*'),
    }
}

/// The text of a distance that is known, where it is 0 or 1.
fn digit(distance: i128) -> Option<u8>
    ensures { IfSome result (λ c. signed_decimal distance ≡ c ∷ []) }
{
    if distance == 0 {
        return Some(b'0');
    }
    if distance == 1 {
        return Some(b'1');
    }
    None
}

impl Shown for Option<i128> {
    ghost text = { shown.distance_text };

    fn push_to(&self, out: &mut Bytes) -> Result<(), NoMemory> {
        match self {
            Some(distance) => push_distance(out, *distance),
            None => out.push(b'*'),
        }
    }
}

/// Adds a distance. Most are 0 or 1.
fn push_distance(out: &mut Bytes, distance: i128) -> Result<(), NoMemory>
    ensures { OnOk result (out.new ≡ out.old ++ signed_decimal distance) }
{
    match distance {
        0 => push_digits(out, 0),
        1 => push_digits(out, 1),
        _ => push_signed(out, distance),
    }
}

/// Adds the word for what is known of a dependence, after a blank.
fn push_mark(out: &mut Bytes, mark: Mark) -> Result<(), NoMemory>
    ensures { OnOk result (out.new ≡ out.old ++ 32 ∷ shown.mark_text (mark_of mark)) }
{
    match mark {
        Mark::Proven => out.extend_from_slice(b" proven"),
        Mark::Pending => out.extend_from_slice(b" pending"),
        Mark::Rejected => out.extend_from_slice(b" rejected"),
    }
}
