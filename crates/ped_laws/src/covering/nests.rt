//! Nests of loops: in every iteration that a run reaches, the variable of each enclosing loop is in the loop's range.

ghost use Rattle.std.specs.Prelude.{◌≡◌, ◌≤◌, ℕ, List, [], ◌∷◌, ◌++◌, true, None, Ok};
ghost use Rattle.ped_flow.specs.ped_tree.specs.Tree.{Head, StmtTrees};
ghost use Rattle.ped_flow.specs.ped_tree.specs.Nests.{Loop};
ghost use Rattle.ped_eval.specs.ped_store.specs.Stores.{Store};
ghost use Rattle.ped_graph.specs.ped_symbols.specs.RightUses.RightLoops.{step_is_right};
ghost use Rattle.ped_eval.specs.Scopes as run;
ghost use Rattle.ped_eval.specs.Scopes.{Scope, names_in, index_value};
ghost use Rattle.ped_eval.specs.Evaluation.{Seen};
ghost use Rattle.ped_eval.specs.Loops.{Limits, limits, Entered, entered_with, frame};
ghost use Rattle.ped_flow.specs.ped_affine.specs.Ranges.{Setting, Around};
ghost use Rattle.ped_flow.specs.ped_affine.specs.PairViews.{heads_of};
ghost use Rattle.ped_laws.specs.Covering.Within.{AreWithin, HoldsStorable};
ghost use Rattle.ped_laws.specs.Covering.Nested.{Surround, IsInNest, loop};
ghost use Rattle.ped_flow.specs.ped_affine.specs.Ranges.{around_with};

/// What can be read lies in its interval where the loops around are those of the iterations, and elements and scalars
/// that are the variable of no DO hold storable numbers.
pub fn within_around()
    ensures { (s : Setting) (around : Around) (p : run.Setting) (scope : Scope) (u : Store) → p.constants ≡ s.constants → Surround around scope → HoldsStorable s.loop_variables u → AreWithin s around (names_in p scope) u }
{}

/// Outside all loops a place is in the empty nest. In each iteration of a DO that is entered in a nest, and whose
/// variable is that of no DO around it, the place is in the nest with that loop.
pub fn nests_in_ranges()
    ensures outside { (s : Setting) (p : run.Setting) → IsInNest s p [] [] }
    ensures inside { (s : Setting) (p : run.Setting) (nest : List Loop) (scope : Scope) (u : Store) (n : ℕ) (h : Head) (body : StmtTrees) (seen : List Seen) (l : Limits) (k : ℕ) → p.constants ≡ s.constants → HoldsStorable s.loop_variables u → IsInNest s p nest scope → index_value scope h.variable ≡ None → step_is_right p.constants h.step ≡ true → (limits (names_in p scope) h u).result ≡ Ok l → 1 ≤ k → k ≤ (entered_with p n h body seen l).count → IsInNest s p (nest ++ loop n h ∷ []) (frame (entered_with p n h body seen l) k ∷ scope) }
{}
