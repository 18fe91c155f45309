//! Tidy programs in which statements are replaced by others. The functions do nothing; their contracts are the laws.

ghost use Rattle.std.specs.Prelude.{◌≡◌, ℕ, List, Bool, false, not, ◌⊎◌};
ghost use Rattle.ped_bodies.specs.ped_flow.specs.ped_base.specs.Lists.{is_among};
ghost use Rattle.ped_bodies.specs.ped_flow.specs.ped_tree.specs.Tree.{Head, StmtTrees, Do, ProgramTree};
ghost use Rattle.ped_bodies.specs.ped_flow.specs.ped_tree.specs.NamesIn.{loop_variables};
ghost use Rattle.ped_bodies.specs.ped_flow.specs.Questions.{IsShownBehind};
ghost use Rattle.ped_bodies.specs.ped_flow.specs.Summaries.{summary_of};
ghost use Rattle.ped_bodies.specs.ped_steps.specs.Tidy.{IsTidy};
ghost use Rattle.ped_loop_runs.specs.Unrejected.{some_rejection, IsTrusted};
ghost use Rattle.ped_loop_runs.specs.Exchanges.{Exchange, old_of, loop_of, IsExchanged, IsStaying, IsNew, KeepsVariable, LeavesAlone};

/// What the program's end may show after a DO of a program in which statements have been exchanged, it may show after
/// a DO of the old program: where the DO is new, after the last of the old ones; else after the DO that it was, or
/// after the last of the old ones. For a path that passes the new statements ends after them, and goes on there as a
/// path from the exit of the old DO does (Allen and Kennedy, section 4.4). What the new statements do isn't asked, but
/// that no STOP is there.
pub fn shown_behind_gap()
    ensures staying { (x : Exchange) (t u : ProgramTree) (w : List ℕ) (k m : ℕ) → IsExchanged x t u → KeepsVariable x w → IsStaying x k m → IsShownBehind u m w → IsShownBehind t k w ⊎ IsShownBehind t (loop_of x) w }
    ensures new { (x : Exchange) (t u : ProgramTree) (w : List ℕ) (m : ℕ) → IsExchanged x t u → KeepsVariable x w → IsNew x m → IsShownBehind u m w → IsShownBehind t (loop_of x) w }
{}

/// A tidy program stays tidy where statements, of which the last is a DO, are exchanged for others that leave alone
/// what a tidy program leaves alone: the variables of the old DO loops aren't shown after the last of them, and of
/// other names the new statements neither write more nor leave more as it is (ParaScope).
pub fn stays_tidy()
    ensures { (x : Exchange) (t u : ProgramTree) → IsExchanged x t u → LeavesAlone x t → IsTidy t → IsTidy u }
{}

/// A program that is tidy and without C$PED REJECT stays so, where, in addition, the new statements have no such line
/// if the old ones have none: what each step shows for the law of sessions (ParaScope).
pub fn stays_trusted()
    ensures { (x : Exchange) (t u : ProgramTree) → IsExchanged x t u → LeavesAlone x t → (some_rejection (old_of x) ≡ false → some_rejection x.new ≡ false) → IsTrusted t → IsTrusted u }
{}

/// A DO leaves a name as it is on some path, if it is no variable of it and of no DO in it, exactly where the DO doesn't
/// have it in its PRIVATE list: it may make no trip, and its exit clears its PRIVATE names (ANSI X3.9-1978, section
/// 11.10.3; ParaScope).
pub fn private_names_cleared()
    ensures { (constants : List (List ℕ)) (w : List ℕ) (h : Head) (body : StmtTrees) (n : ℕ) → is_among w (loop_variables (Do h body)) ≡ false → (summary_of constants w (Do h body) n).keeps ≡ not (is_among w h.private) }
{}
