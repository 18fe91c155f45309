//! Bounds of arrays: a run uses only those of the arrays that its statements name.

ghost use Rattle.std.specs.Prelude.{◌≡◌, ℕ, List};
ghost use Rattle.ped_base.specs.Dimensions.{Dimensions};
ghost use Rattle.ped_tree.specs.Tree.{StmtTree, StmtTrees};
ghost use Rattle.ped_tree.specs.NamesIn.{stmt_names, stmts_names};
ghost use Rattle.ped_weaves.specs.ped_eval.specs.Scopes.{Setting, Scope};
ghost use Rattle.ped_weaves.specs.ped_eval.specs.Runs.{run, run_all};
ghost use Rattle.ped_steps.specs.Runs.Pasting.{AgreeInBounds};

/// A piece of a run depends on the bounds of those arrays alone that its statements name. For statements that stay in a
/// program which declares further arrays.
pub fn own_bounds()
    ensures statement { (p : Setting) (others : List ℕ → Dimensions) (s : StmtTree) (n : ℕ) (scope : Scope) → AgreeInBounds p.bounds others (stmt_names s) → run p s n scope ≡ run (record { bounds = others; constants = p.constants; number = p.number }) s n scope }
    ensures statements { (p : Setting) (others : List ℕ → Dimensions) (ss : StmtTrees) (n : ℕ) (scope : Scope) → AgreeInBounds p.bounds others (stmts_names ss) → run_all p ss n scope ≡ run_all (record { bounds = others; constants = p.constants; number = p.number }) ss n scope }
{}
