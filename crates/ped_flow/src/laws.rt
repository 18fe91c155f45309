//! What the definitions in `specs/` determine. The function does nothing; its contract is the law.

ghost use Rattle.std.specs.Prelude.{ℕ, List};
ghost use Rattle.ped_tree.specs.Tree.{StmtTree, StmtTrees};
ghost use Rattle.ped_flow.specs.Paths.{paths, all_paths, paths_behind, all_paths_behind, paths_before, all_paths_before};
ghost use Rattle.ped_flow.specs.Summaries.{AreOnward, AreSummed, summary_of, summary_of_all, summary_behind, summary_behind_all, summary_before, summary_before_all};

/// What the paths of statements do to a scalar, those from the exit of a loop and those to an outermost
/// loop too, is known from what the paths of the parts do, step by step. Of any number of trips none and
/// one are enough.
pub fn paths_are_summed()
    ensures statement { (constants : List (List ℕ)) (x : List ℕ) (s : StmtTree) (n : ℕ) → AreSummed (paths constants s n) x (summary_of constants x s n) }
    ensures statements { (constants : List (List ℕ)) (x : List ℕ) (ss : StmtTrees) (n : ℕ) → AreSummed (all_paths constants ss n) x (summary_of_all constants x ss n) }
    ensures behind { (constants : List (List ℕ)) (x : List ℕ) (l : ℕ) (ss : StmtTrees) (n : ℕ) → AreSummed (all_paths_behind constants l ss n) x (summary_behind_all constants x l ss n) }
    ensures before { (constants : List (List ℕ)) (x : List ℕ) (l : ℕ) (ss : StmtTrees) (n : ℕ) → AreOnward (all_paths_before constants l ss n) x (summary_before_all constants x l ss n) }
{}
