//! What is true of the pane of calls. The functions do nothing; their contracts are the laws.

ghost use Rattle.std.specs.Prelude.{◌≡◌, ◌<◌, ◌||◌, ℕ, List, true};
ghost use Rattle.ped_tree.specs.Tree.{ProgramTree};
ghost use Rattle.ped_rules.specs.ped_symbols.specs.NameRefusals.{IsValid};
ghost use Rattle.ped_edges.specs.Edges.{Edge};
ghost use Rattle.ped_rules.specs.ped_graph.specs.Dependences.{AreEdges};
ghost use Rattle.ped_rules.specs.ped_store.specs.Races.{Access, conflict};
ghost use Rattle.ped_rules.specs.ped_laws.specs.Conflicts.Directions.{share_a_loop};
ghost use Rattle.ped_rules.specs.ped_laws.specs.Conflicts.Covered.{ComeInRun};
ghost use Rattle.ped_inline.specs.CallsPane.{IsCallsPane};
ghost use Rattle.ped_inline.specs.CoveredCalls.{is_in_block, AreInOneCall, IsCoveredFolded};

use ped_rules::{accesses_are_made, accesses_in_sequence, conflicts_are_covered};

/// Where two accesses of a run that references make conflict in one execution of a loop around both, and one of them is
/// made in a marked block, but not both in one execution of one block, there is a folded dependence from the reference
/// of the earlier to that of the later, and the loop carries it in whose iterations they are apart first (Allen and
/// Kennedy, section 2.2.1; ParaScope). So the pane of calls has a row where references in a CALL's block and outside
/// that execution of it conflict in one execution of a loop around both. What a DO makes itself has none.
pub fn calls_are_covered()
    ensures { (t : ProgramTree) (data_bytes : List ℕ) (a b : Access) (edges : List Edge) → IsValid t → ComeInRun t data_bytes a b → conflict a b ≡ true → 0 < a.reference → 0 < b.reference → share_a_loop a.place.turns b.place.turns ≡ true → AreEdges t edges
        → (is_in_block t a || is_in_block t b) ≡ true → (¬ AreInOneCall t a b) → IsCoveredFolded t edges a b }
{
    accesses_are_made();
    accesses_in_sequence();
    conflicts_are_covered();
}

/// A program has one pane of calls, whatever its dependences are.
pub fn one_calls_pane()
    ensures some { (t : ProgramTree) (edges : List Edge) → AreEdges t edges → (pane : List ℕ) × IsCallsPane t pane }
    ensures one { (t : ProgramTree) (p q : List ℕ) → IsCallsPane t p → IsCallsPane t q → p ≡ q }
{}
