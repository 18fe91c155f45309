//! Values of DO variables lie in the ranges of their loops, whatever the bounds have read.

ghost use Rattle.std.specs.Prelude.{◌≡◌, ◌≤◌, ℕ, ℤ, pos, ◌-◌, ◌+ℤ◌, ◌*ℤ◌, ◌≤ℤ◌, ◌<ℤ◌, List, true, Ok};
ghost use Rattle.ped_graph.specs.ped_views.specs.Excluded.{InRange};
ghost use Rattle.ped_flow.specs.ped_tree.specs.Tree.{Head, StmtTrees};
ghost use Rattle.ped_eval.specs.ped_store.specs.Stores.{Store};
ghost use Rattle.ped_graph.specs.ped_symbols.specs.RightUses.RightLoops.{step_is_right};
ghost use Rattle.ped_eval.specs.Scopes as run;
ghost use Rattle.ped_eval.specs.Scopes.{Scope, names_in};
ghost use Rattle.ped_eval.specs.Evaluation.{Seen};
ghost use Rattle.ped_eval.specs.Loops.{Limits, limits, iteration_count, Entered, entered_with, value_in};
ghost use Rattle.ped_flow.specs.ped_affine.specs.Ranges.{Setting, Around, loop_range};
ghost use Rattle.ped_laws.specs.Covering.Within.{AreWithin};

/// In each of its iterations the value of a DO variable lies from the initial value to the terminal value, and with a
/// negative increment from the terminal value to the initial one.
pub fn values_between_limits()
    ensures upwards { (m1 m2 m3 : ℤ) (k : ℕ) → pos 0 <ℤ m3 → 1 ≤ k → k ≤ iteration_count m1 m2 m3 → (m1 ≤ℤ (m1 +ℤ pos (k - 1) *ℤ m3)) × ((m1 +ℤ pos (k - 1) *ℤ m3) ≤ℤ m2) }
    ensures downwards { (m1 m2 m3 : ℤ) (k : ℕ) → m3 <ℤ pos 0 → 1 ≤ k → k ≤ iteration_count m1 m2 m3 → (m2 ≤ℤ (m1 +ℤ pos (k - 1) *ℤ m3)) × ((m1 +ℤ pos (k - 1) *ℤ m3) ≤ℤ m1) }
{}

/// Where what can be read lies in its interval, each value of the variable of a DO that is entered there lies in the
/// range of that loop.
pub fn values_in_ranges()
    ensures { (s : Setting) (around : Around) (p : run.Setting) (scope : Scope) (u : Store) (n : ℕ) (h : Head) (body : StmtTrees) (seen : List Seen) (l : Limits) (k : ℕ) → AreWithin s around (names_in p scope) u → (limits (names_in p scope) h u).result ≡ Ok l → step_is_right p.constants h.step ≡ true → 1 ≤ k → k ≤ (entered_with p n h body seen l).count → InRange (loop_range s around h) (value_in (entered_with p n h body seen l) k) }
{}
