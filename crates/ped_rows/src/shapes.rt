//! Dependences ignore the bounds of arrays.

ghost use Rattle.std.specs.Prelude.{◌↔◌, List};
ghost use Rattle.ped_laws.specs.ped_flow.specs.ped_tree.specs.Tree.{ProgramTree};
ghost use Rattle.ped_laws.specs.ped_graph.specs.ped_edges.specs.Edges.{Edge};
ghost use Rattle.ped_laws.specs.ped_graph.specs.Dependences.{AreEdges};
ghost use Rattle.ped_rows.specs.Shapes.{HaveSameShapes};

/// Two programs of the same statements, whose declarations differ in the bounds of arrays alone, have the same
/// dependences. So a pane doesn't say whether subscripts lie within their bounds.
pub fn dependences_by_shapes()
    ensures { (t u : ProgramTree) (edges : List Edge) → HaveSameShapes t u → AreEdges t edges ↔ AreEdges u edges }
{}
