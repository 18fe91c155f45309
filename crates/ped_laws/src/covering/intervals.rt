//! Values of expressions lie in their intervals, in whatever store and iterations they are evaluated.

ghost use Rattle.std.specs.Prelude.{◌≡◌, ℤ, List, Some, Ok};
ghost use Rattle.ped_graph.specs.ped_views.specs.declared.intervals.Interval.{Interval};
ghost use Rattle.ped_graph.specs.ped_views.specs.Intervals.{Lies};
ghost use Rattle.ped_flow.specs.ped_tree.specs.Tree.{ExprTree, Head};
ghost use Rattle.ped_eval.specs.ped_store.specs.Stores.{Store};
ghost use Rattle.ped_eval.specs.Scopes.{Names};
ghost use Rattle.ped_eval.specs.Values.{value};
ghost use Rattle.ped_eval.specs.Loops.{Limits, limits};
ghost use Rattle.ped_flow.specs.ped_affine.specs.Ranges.{Setting, Around, interval_of, bound_interval};
ghost use Rattle.ped_laws.specs.Covering.Within.{AreWithin};

/// Where what can be read lies in its interval, an expression that has an interval has its value in it, and the bounds
/// with which a DO is entered lie in theirs.
pub fn values_in_intervals()
    ensures value { (s : Setting) (around : Around) (g : Names) (u : Store) (e : ExprTree) (n : ℤ) (r : Interval) → AreWithin s around g u → (value g e u).result ≡ Ok n → interval_of s around e ≡ Some r → Lies n r }
    ensures limits { (s : Setting) (around : Around) (g : Names) (u : Store) (h : Head) (l : Limits) → AreWithin s around g u → (limits g h u).result ≡ Ok l → Lies l.first (bound_interval s around h.first) × Lies l.last (bound_interval s around h.last) }
{}
