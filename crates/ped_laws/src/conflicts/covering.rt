//! Dependences cover conflicts.

ghost use Rattle.std.specs.Prelude.{◌≡◌, ◌<◌, ℕ, List, true};
ghost use Rattle.ped_flow.specs.ped_tree.specs.Tree.{ProgramTree};
ghost use Rattle.ped_graph.specs.ped_symbols.specs.NameRefusals.{IsValid};
ghost use Rattle.ped_eval.specs.ped_store.specs.Races.{Access, conflict, race};
ghost use Rattle.ped_graph.specs.ped_edges.specs.Edges.{Edge};
ghost use Rattle.ped_graph.specs.Dependences.{AreEdges};
ghost use Rattle.ped_laws.specs.Conflicts.Directions.{share_a_loop};
ghost use Rattle.ped_laws.specs.Conflicts.Covered.{ComeInRun, IsCovered, IsCarriedInParallel};

use crate::conflicts::making::accesses_are_made;
use crate::conflicts::possible::directions_are_possible;
use crate::conflicts::sequence::accesses_in_sequence;

/// Where two accesses of a run that references make conflict in one execution of their outermost common loop, the
/// program has a dependence from the reference of the earlier to that of the later, and its vectors contain the
/// directions in which they are (Allen and Kennedy, section 2.2.1). So a dependence that isn't shown doesn't happen.
pub fn conflicts_are_covered()
    ensures { (t : ProgramTree) (data_bytes : List ℕ) (a b : Access) (edges : List Edge) → IsValid t → ComeInRun t data_bytes a b → conflict a b ≡ true → 0 < a.reference → 0 < b.reference → share_a_loop a.place.turns b.place.turns ≡ true → AreEdges t edges → IsCovered t edges a b }
{
    accesses_are_made();
    accesses_in_sequence();
    directions_are_possible();
}

/// Where two accesses of a run race, the program has a dependence from a reference of the earlier one's statement to one
/// of the later one's, and a PARALLEL DO carries it (Allen and Kennedy, section 2.2.5).
pub fn races_are_covered()
    ensures { (t : ProgramTree) (data_bytes : List ℕ) (a b : Access) (edges : List Edge) → IsValid t → ComeInRun t data_bytes a b → race a b ≡ true → AreEdges t edges → IsCarriedInParallel t edges a.place.statement b.place.statement }
{
    accesses_are_made();
    accesses_in_sequence();
    directions_are_possible();
}
