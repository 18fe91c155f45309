//! Rewritings of expressions.

ghost use Rattle.std.specs.Prelude.{◌≡◌, ℕ, ℤ, List, false, None};
ghost use Rattle.ped_steps.specs.ped_flow.specs.ped_base.specs.Lists.{is_among};
ghost use Rattle.ped_steps.specs.ped_affine.specs.Assigned.{assigned_in_all};
ghost use Rattle.ped_steps.specs.ped_flow.specs.ped_tree.specs.Constants.NamedConstants.{value_named};
ghost use Rattle.ped_steps.specs.ped_flow.specs.ped_tree.specs.Tree.{ExprTree, StmtTrees};
ghost use Rattle.ped_steps.specs.ped_symbolic.specs.Substitution.{substituted, all_substituted, statements_substituted};
ghost use Rattle.ped_bodies.specs.Rewriting.{IsRewriting, unchanged, all_unchanged, statements_rewritten, HaveIncrements, MayBeRewritten};

/// An expression in place of a scalar is a rewriting, and so is leaving everything as it is; statements are substituted
/// in where each of their expressions is rewritten so. For `statements_likewise`.
pub fn rewritings()
    ensures unchanged { IsRewriting unchanged all_unchanged }
    ensures stay { (ts : StmtTrees) → statements_rewritten unchanged ts ≡ ts }
    ensures may_stay { (constants : List (List ℕ × ℤ)) (ts : StmtTrees) → MayBeRewritten unchanged constants ts }
    ensures substitution { (x : List ℕ) (by : ExprTree) → IsRewriting (substituted x by) (all_substituted x by) }
    ensures substituted { (x : List ℕ) (by : ExprTree) (ts : StmtTrees) → statements_substituted x by ts ≡ statements_rewritten (substituted x by) ts }
    ensures may_give_way { (constants : List (List ℕ × ℤ)) (x : List ℕ) (by : ExprTree) (ts : StmtTrees) → value_named constants x ≡ None → is_among x (assigned_in_all ts) ≡ false → HaveIncrements constants ts → MayBeRewritten (substituted x by) constants ts }
{}
