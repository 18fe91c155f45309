//! Directions of two accesses to one cell.

ghost use Rattle.std.specs.Prelude.{◌≡◌, List, true, length};
ghost use Rattle.ped_graph.specs.ped_views.specs.declared.directions.Direction.{Direction};
ghost use Rattle.ped_graph.specs.ped_views.specs.Vectors.{IsPossible};
ghost use Rattle.ped_flow.specs.ped_tree.specs.Tree.{ProgramTree};
ghost use Rattle.ped_graph.specs.ped_symbols.specs.NameRefusals.{IsValid};
ghost use Rattle.ped_graph.specs.ped_refs.specs.References.{Reference, outermost};
ghost use Rattle.ped_eval.specs.ped_store.specs.Cells.{same_cell};
ghost use Rattle.ped_eval.specs.ped_store.specs.Stores.{Store};
ghost use Rattle.ped_eval.specs.ped_store.specs.Races.{Access};
ghost use Rattle.ped_eval.specs.Scopes.{Scope};
ghost use Rattle.ped_graph.specs.Dependences.{view_of};
ghost use Rattle.ped_laws.specs.Conflicts.Making.{IsMade};
ghost use Rattle.ped_laws.specs.Conflicts.Directions.{StandInDirections, share_a_loop};

/// Where two references touch one cell in one execution of their outermost common loop, the vector of the directions in
/// which they are is one of those of their view: no position excludes it, and it has a direction for each common loop.
pub fn directions_are_possible()
    ensures { (t : ProgramTree) (first : Store) (a b : Access) (source sink : Reference) (at_source at_sink : Scope) (u v : Store) (vector : List Direction) → IsValid t → IsMade t first a source at_source u → IsMade t first b sink at_sink v → share_a_loop a.place.turns b.place.turns ≡ true → same_cell a.cell b.cell ≡ true → StandInDirections t a.place.turns b.place.turns vector
        → IsPossible (view_of t source sink) vector × (length vector ≡ length (view_of t source sink).loops) }
{}
