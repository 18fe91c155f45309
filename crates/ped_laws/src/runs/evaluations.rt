//! Evaluations: what they see determines their result.

ghost use Rattle.ped_flow.specs.ped_tree.specs.Tree.{ExprTree, ExprTrees, CondTree, Head};
ghost use Rattle.ped_eval.specs.Scopes.{Names};
ghost use Rattle.ped_eval.specs.Values.{value, values, truth, target};
ghost use Rattle.ped_eval.specs.Loops.{limits};
ghost use Rattle.ped_laws.specs.Runs.Seeing.{IsToldBySight};

/// What an evaluation sees determines its result: from each store that holds the same, it gives the same value or
/// fault. For reads that come into a program, as those of bounds that are evaluated more often.
pub fn seen_values()
    ensures value { (g : Names) (e : ExprTree) → IsToldBySight (value g e) }
    ensures truth { (g : Names) (c : CondTree) → IsToldBySight (truth g c) }
    ensures target { (g : Names) (e : ExprTree) → IsToldBySight (target g e) }
    ensures limits { (g : Names) (h : Head) → IsToldBySight (limits g h) }
{}
