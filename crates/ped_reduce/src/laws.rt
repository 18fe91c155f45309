//! What is true of the step, and of lowering. The functions do nothing; their contracts are the laws.

ghost use Rattle.std.specs.Prelude.{◌≡◌, ◌≤◌, [], ℕ, List, All, length, false};
ghost use Rattle.ped_tree.specs.Numbering.{statements_count};
ghost use Rattle.ped_tree.specs.Tree.{ProgramTree};
ghost use Rattle.ped_rules.specs.Lawful.{IsLawful};
ghost use Rattle.ped_rules.specs.ped_loop_runs.specs.Unrejected.{IsTrusted};
ghost use Rattle.ped_rules.specs.ped_symbols.specs.NameRefusals.{IsValid};
ghost use Rattle.ped_rules.specs.ped_steps.specs.Runs.Meaning.{Keeps};
ghost use Rattle.ped_rules.specs.ped_flow.specs.Questions.{LoopOf};
ghost use Rattle.ped_reduce.specs.Lists.{has_list};
ghost use Rattle.ped_reduce.specs.Lowering.{Lowered, not_lowered};
ghost use Rattle.ped_reduce.specs.Reducing.{IsLowered, reducing};

use ped_rules::{parallel_is_lawful, private_names_cleared, stays_trusted};

/// `reduce` has one first cause at most and makes one program. Where nothing forbids it, that one is valid if the old one is;
/// and if the old one is also tidy and without C$PED REJECT, so is the new one, and it means the same: the list is a comment
/// (ParaScope). With such lines it does on data on which they are true, if both are tidy.
pub fn reduction_is_lawful()
    ensures { (s : ℕ) (names : List (List ℕ)) → IsLawful (reducing s names) }
{
    stays_trusted();
    private_names_cleared();
}

/// A program is lowered in one way. What comes of it is valid where the program is, and each of its statements comes from one of
/// the program. Where no DO has a list, or none has one that is live, nothing is lowered (this project).
pub fn one_lowering()
    ensures one { (t : ProgramTree) (q r : Lowered) → IsLowered t q → IsLowered t r → q ≡ r }
    ensures valid { (t : ProgramTree) (q : Lowered) → IsValid t → IsLowered t q → IsValid q.tree }
    ensures origins { (t : ProgramTree) (q : Lowered) → IsLowered t q → length q.origin ≡ statements_count q.tree.body }
    ensures inside { (t : ProgramTree) (q : Lowered) → IsLowered t q → All (λ n. (1 ≤ n) × (n ≤ statements_count t.body)) q.origin }
    ensures none { (t : ProgramTree) → ((s : ℕ) (l : LoopOf t s) → has_list l.head l.body ≡ false) → IsLowered t (not_lowered t) }
    ensures none_live { (t : ProgramTree) (q : Lowered) → IsLowered t q → q.live ≡ [] → q ≡ not_lowered t }
{}

/// What comes of a program by lowering may be trusted as the program, and means the same: on all data on which the program runs
/// without a fault and without a race, the lowered one has the same outcome and no race (Allen and Kennedy, section 5.6;
/// ParaScope; this project).
pub fn lowering_keeps_the_meaning()
    ensures { (t : ProgramTree) (q : Lowered) → IsValid t → IsTrusted t → IsLowered t q → IsTrusted q.tree × Keeps t q.tree }
{
    parallel_is_lawful();
}
