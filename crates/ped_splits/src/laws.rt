//! What is true of the steps. The functions do nothing; their contracts are the laws.

ghost use Rattle.std.specs.Prelude.{◌≡◌, ◌⊎◌, ℕ, ◌+◌, List, length, Some};
ghost use Rattle.ped_tree.specs.Tree.{ProgramTree};
ghost use Rattle.ped_rules.specs.Lawful.{IsLawful};
ghost use Rattle.ped_splits.specs.Distributing.{distributing};
ghost use Rattle.ped_rules.specs.ped_loop_runs.specs.Carried.{IsCoveredAt};
ghost use Rattle.ped_rules.specs.ped_steps.specs.Causes.{NoRule};
ghost use Rattle.ped_rules.specs.ped_symbols.specs.NameRefusals.{IsValid};
ghost use Rattle.ped_rules.specs.ped_graph.specs.Dependences.{AreEdges};
ghost use Rattle.ped_edges.specs.Edges.{Edge};
ghost use Rattle.ped_rules.specs.ped_eval.specs.Outcomes.{Ends, run_of};
ghost use Rattle.ped_rules.specs.ped_store.specs.Races.{Access};
ghost use Rattle.ped_splits.specs.Fusing.{Match, StandsAgainstFusion, fusing};
ghost use Rattle.ped_splits.specs.Neighbours.{fused};
ghost use Rattle.ped_splits.specs.OneVariable.{IsUnwritten, in_one, Cross};

use ped_rules::{
    accesses_are_made, accesses_in_sequence, none_rejected, private_names_cleared, stays_trusted,
};

/// `distribute` has one first cause at most and makes one program. Where nothing forbids it, that one is valid if the old one
/// is; and if the old one is also tidy and without C$PED REJECT, so is the new one, and it means the same. With such lines it
/// does on data on which they are true, if both are tidy (Allen and Kennedy, section 6.2.2; ParaScope).
pub fn distribution_is_lawful()
    ensures { (s : ℕ) → IsLawful (distributing s) }
{
    accesses_are_made();
    accesses_in_sequence();
    stays_trusted();
    private_names_cleared();
    none_rejected();
}

/// `fuse` has one first cause at most and makes one program. Where nothing forbids it, that one is valid if the old one is;
/// and if the old one is also tidy and without C$PED REJECT, so is the new one, and it means the same. With such lines it
/// does, if both are tidy, on data on which no rejected dependence of the old one occurs, and none of the new one that leads
/// back (Allen and Kennedy, section 6.2.5; ParaScope).
pub fn fusion_is_lawful()
    ensures { (s : ℕ) → IsLawful (fusing s) }
{
    accesses_are_made();
}

/// In a run that ends of a program in which no rule forbids `fuse`: where two references make conflicting accesses, one
/// in an iteration of the second DO and one in a later iteration of the first, in the same iterations around the two,
/// the dependences of the program with the one DO have one from the first of them to the second, which the one DO
/// carries, with the directions of the values that the variables of the loops around both have at the accesses. It may
/// forbid the step. Where the two DOs have two variables, no reference in a PARALLEL DO may write that of the second if
/// its iterations have copies of it (Allen and Kennedy, section 6.2.5).
pub fn fused_conflicts_are_covered()
    ensures { (t : ProgramTree) (s : ℕ) (m : Match t s) → IsValid t → (m.neighbour.own.variable ≡ m.neighbour.next.variable) ⊎ IsUnwritten t m.neighbour.next.variable → NoRule (StandsAgainstFusion s t) → (data_bytes : List ℕ) → Ends (run_of t data_bytes).ending → (a b : Access) → (x : Cross m.neighbour data_bytes a b) → (edges : List Edge) → AreEdges (fused m.neighbour) edges
        → IsCoveredAt (fused m.neighbour) edges (Some (length x.round + 1)) (in_one m.neighbour a) b }
{
    accesses_are_made();
}
