//! What is true of the values of two accesses of a run. The functions here do nothing; their contracts are the laws.

ghost use Rattle.std.specs.Prelude.{◌≡◌, ℤ, List, true};
ghost use Rattle.ped_views.specs.declared.directions.Direction.{Direction};
ghost use Rattle.ped_base.specs.Lists.{has_some};
ghost use Rattle.ped_certificates.specs.Rows.{Meets};
ghost use Rattle.ped_tree.specs.Tree.{ProgramTree};
ghost use Rattle.ped_refs.specs.References.{Reference, references};
ghost use Rattle.ped_refs.specs.TextPlaces.{place_of};
ghost use Rattle.ped_laws.specs.ped_graph.specs.ped_symbols.specs.NameRefusals.{IsValid};
ghost use Rattle.ped_laws.specs.ped_edges.specs.Edges.{Edge};
ghost use Rattle.ped_laws.specs.ped_store.specs.Cells.{same_cell};
ghost use Rattle.ped_laws.specs.ped_store.specs.Stores.{Store};
ghost use Rattle.ped_laws.specs.ped_store.specs.Races.{Access};
ghost use Rattle.ped_laws.specs.ped_eval.specs.Scopes.{Scope};
ghost use Rattle.ped_laws.specs.Acts.Orders.{IsIn};
ghost use Rattle.ped_laws.specs.Conflicts.Making.{IsMade};
ghost use Rattle.ped_laws.specs.Conflicts.Directions.{StandInDirections, share_a_loop};
ghost use Rattle.ped_certificates.specs.declared.claims.Sign.{Sign};
ghost use Rattle.ped_evidence.specs.Signs.{fits};
ghost use Rattle.ped_evidence.specs.Claims.{system};
ghost use Rattle.ped_evidence.specs.Evidence.{Line, disproves, NeverMeet};

use ped_certificates::nothing_meets;
use ped_laws::conflicts::{accesses_are_made, accesses_in_sequence};

/// Where two references touch one cell in one execution of their outermost common loop, in directions that a pattern
/// fits, whole numbers satisfy their system: the values of the loops' variables and of the symbols, and quotients.
pub fn accesses_meet_system()
    ensures { (t : ProgramTree) (first : Store) (a b : Access) (source sink : Reference) (at_source at_sink : Scope) (u v : Store) (vector : List Direction) (pattern : List Sign) → IsMade t first a source at_source u → IsMade t first b sink at_sink v → share_a_loop a.place.turns b.place.turns ≡ true → same_cell a.cell b.cell ≡ true → StandInDirections t a.place.turns b.place.turns vector
        → fits pattern vector ≡ true → (values : List ℤ) × Meets (system t source sink pattern).rows values }
{}

/// Where evidence disproves a vector of a dependence, no two accesses of a run of a valid program by its references
/// conflict in one execution of an outermost DO in the directions of the vector.
pub fn disproved_never_meets()
    ensures { (t : ProgramTree) (evidence : List Line) (e : Edge) (v : List Direction) → IsValid t → disproves t evidence e v ≡ true → NeverMeet t e.source e.sink v }
{
    accesses_are_made();
    accesses_in_sequence();
    nothing_meets();
}

/// Evidence speaks of elements alone: where it disproves a vector of a dependence, the reference at its source has
/// subscripts.
pub fn disproved_are_of_elements()
    ensures { (t : ProgramTree) (evidence : List Line) (e : Edge) (v : List Direction) → disproves t evidence e v ≡ true → (r : Reference) → IsIn r (references t) → e.source ≡ place_of r → has_some r.access.subscripts ≡ true }
{}
