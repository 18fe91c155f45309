//! Which statements exist, which dependences belong to one, and which to a level of a loop.

ghost use Rattle.std.specs.Prelude.{◌≡◌, ◌&&◌, ◌||◌, filter};
ghost use Rattle.ped_edges.specs.CodeEdges.{edge_of};
ghost use Rattle.ped_graph.specs.DependencePane as Pane;
ghost use Rattle.ped_graph.specs.HeldSelections as Held;
ghost use Rattle.ped_edges.specs.Edges as plain;

use ped_edges::Edge;

/// A statement by its number, with the number of statements in it, itself among them.
#[derive(Clone, Copy)]
pub struct Region {
    /// Its number.
    pub number: u32,
    /// How many statements it has.
    pub extent: u32,
}

/// Which dependences are asked for.
#[derive(Clone, Copy)]
pub enum Question {
    /// All.
    All,
    /// Those whose source or sink is a statement or is in it.
    Touching(Region),
    /// Those with both references in the body of a DO.
    Within(Region),
}

/// Whether dependences are asked for whose references are in these statements.
pub fn asks(question: Question, source: u32, sink: u32) -> bool
    ensures { (e : plain.Edge) → e.source.0 ≡ source → e.sink.0 ≡ sink → Held.asks question e ≡ result }
{
    match question {
        Question::All => true,
        Question::Touching(region) => touch(region, source, sink),
        Question::Within(region) => stand_in(region, source, sink),
    }
}

/// Whether a reference is in a statement.
fn touch(region: Region, source: u32, sink: u32) -> bool
    ensures { result ≡ (Pane.is_in region.number region.extent source || Pane.is_in region.number region.extent sink) }
{
    is_in(region.number, region.extent, source) || is_in(region.number, region.extent, sink)
}

/// Whether both references are in the body of a DO.
fn stand_in(region: Region, source: u32, sink: u32) -> bool
    ensures { result ≡ (Pane.is_in_body region.number region.extent source && Pane.is_in_body region.number region.extent sink) }
{
    is_in_body(region.number, region.extent, source)
        && is_in_body(region.number, region.extent, sink)
}

/// How many numbered statements the statement with this number has, itself and those in it; 0 where there is none.
pub fn extent_of(extents: &[u32], number: u32) -> u32
    ensures { result ≡ Held.extent_held extents.now number }
{
    if number == 0 {
        return 0;
    }
    match extents.get(number as usize - 1) {
        Some(extent) => *extent,
        None => 0,
    }
}

/// Whether there is a statement with this number.
pub fn has_number(extents: &[u32], number: u32) -> bool
    ensures { result ≡ Held.has_number extents.now number }
{
    if number == 0 {
        return false;
    }
    number as usize - 1 < extents.len()
}

/// Keeps the dependences whose source or sink is a statement with this many statements, or is in it.
pub fn keep_touching(edges: &mut Vec<Edge>, number: u32, extent: u32)
    ensures { edges.new.items ≡ filter (λ e. Held.touches number extent (edge_of e)) edges.old.items }
{
    edges.retain(|edge| touches(edge, number, extent));
}

/// Keeps the dependences of a level with both references in the body of a DO with this many statements.
pub fn keep_carried_in(edges: &mut Vec<Edge>, number: u32, extent: u32, level: u8)
    ensures { edges.new.items ≡ filter (λ e. Held.is_carried_in number extent level (edge_of e)) edges.old.items }
{
    edges.retain(|edge| is_carried_in(edge, number, extent, level));
}

fn touches(edge: &Edge, number: u32, extent: u32) -> bool
    ensures { result ≡ Held.touches number extent (edge_of edge.now) }
{
    is_in(number, extent, edge.source.0) || is_in(number, extent, edge.sink.0)
}

fn is_carried_in(edge: &Edge, number: u32, extent: u32, level: u8) -> bool
    ensures { result ≡ Held.is_carried_in number extent level (edge_of edge.now) }
{
    is_level(level, edge.level)
        && is_in_body(number, extent, edge.source.0)
        && is_in_body(number, extent, edge.sink.0)
}

/// Whether the second statement is the first, which has this many statements, or is in it.
pub fn is_in(number: u32, extent: u32, other: u32) -> bool
    ensures { result ≡ Pane.is_in number extent other }
{
    number <= other && u64::from(other) < u64::from(number) + u64::from(extent)
}

/// Whether a statement is in the body of a DO, which has this many statements.
pub fn is_in_body(number: u32, extent: u32, other: u32) -> bool
    ensures { result ≡ Pane.is_in_body number extent other }
{
    number < other && u64::from(other) < u64::from(number) + u64::from(extent)
}

fn is_level(level: u8, carried: Option<u8>) -> bool
    ensures { result ≡ Pane.is_level level carried }
{
    match carried {
        Some(carried) => carried == level,
        None => false,
    }
}
