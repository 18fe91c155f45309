//! The dependence pane: the number of dependences, and a row for each.

ghost use Rattle.std.specs.Prelude.{◌≡◌, ◌++◌, [], ◌∷◌, map, OnOk, IfOk, All};
ghost use Rattle.std.specs.List.{flat_map};
ghost use Rattle.ped_edges.specs.Rows as shown;
ghost use Rattle.ped_edges.specs.CodeEdges.{edge_of, HasAtMostSixLoops};

use crate::edges::Edge;
use ped_base::{Bytes, NoMemory, push_number};
use std::alloc::Global;

/// The dependence pane of these dependences: `dependences` and their number, and then a row for each.
pub fn edges_pane(alloc: Global, edges: &[Edge]) -> Result<Bytes, NoMemory>
    requires { All HasAtMostSixLoops edges.now }
    ensures { IfOk result (λ pane. pane ≡ shown.edges_pane (map edge_of edges.now)) }
{
    let mut pane = Bytes::new(alloc);
    push_edges_pane(&mut pane, edges)?;
    Ok(pane)
}

/// Adds the dependence pane of these dependences. If memory runs out, the text ends somewhere in the pane.
pub fn push_edges_pane(out: &mut Bytes, edges: &[Edge]) -> Result<(), NoMemory>
    requires { All HasAtMostSixLoops edges.now }
    ensures { OnOk result (out.new ≡ out.old ++ shown.edges_pane (map edge_of edges.now)) }
{
    out.extend_from_slice(b"dependences ")?;
    push_number(out, edges.len() as u64)?;
    out.push(b'\n')?;
    push_rows(out, edges)
}

/// Adds the rows of dependences.
fn push_rows(out: &mut Bytes, edges: &[Edge]) -> Result<(), NoMemory>
    requires { All HasAtMostSixLoops edges.now }
    ensures { OnOk result (out.new ≡ out.old ++ flat_map (λ e. shown.edge_row e ++ 10 ∷ []) (map edge_of edges.now)) }
{
    for edge in edges {
        edge.push_row(out)?;
        out.push(b'\n')?;
    }
    Ok(())
}
