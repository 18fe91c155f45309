//! Bounds of an inner loop, one loop further out.

ghost use Rattle.std.specs.Prelude.{◌≡◌, ◌<◌, ◌⊎◌, ℕ, ℤ, ◌+◌, List, ◌∷◌, true, false, None};
ghost use Rattle.std.specs.Str.Lines.{lines};
ghost use Rattle.ped_bodies.specs.ped_flow.specs.ped_base.specs.Lists.{is_among};
ghost use Rattle.ped_bodies.specs.ped_affine.specs.Ranges.{bound_interval};
ghost use Rattle.ped_bodies.specs.ped_flow.specs.ped_tree.specs.Tree.{ExprTree, Add, Sub, ProgramTree};
ghost use Rattle.ped_bodies.specs.ped_flow.specs.ped_tree.specs.NamesIn.{expr_names};
ghost use Rattle.ped_bodies.specs.ped_flow.specs.ped_tree.specs.Nests.{indices_of};
ghost use Rattle.ped_bodies.specs.ped_flow.specs.ped_tree.specs.Numbering.{statements_count};
ghost use Rattle.ped_bodies.specs.ped_flow.specs.ped_tree.specs.Constants.ConstantExpressions.{constant_value};
ghost use Rattle.ped_bodies.specs.ped_flow.specs.ped_tree.specs.Grammar.Fits.{expr_fits};
ghost use Rattle.ped_bodies.specs.ped_flow.specs.PlainBounds.{Values, nest_round, setting_round, IsPlain};
ghost use Rattle.ped_bodies.specs.ped_flow.specs.Questions.{LoopOf};
ghost use Rattle.ped_bodies.specs.ped_symbols.specs.NameRefusals.{IsValid};
ghost use Rattle.ped_bodies.specs.ped_store.specs.Stores.{store_at_start};
ghost use Rattle.ped_bodies.specs.ped_store.specs.Acts.{Act};
ghost use Rattle.ped_bodies.specs.ped_eval.specs.Scopes.{Frame, Scope};
ghost use Rattle.ped_bodies.specs.ped_eval.specs.Outcomes.{setting_of};
ghost use Rattle.ped_bodies.specs.ped_laws.specs.Acts.Fitting.{store_after};
ghost use Rattle.ped_bodies.specs.ped_laws.specs.FlowRuns.Entries.{IsEntry};
ghost use Rattle.ped_bodies.specs.ped_laws.specs.Plain.PlainValues.{around_loop};
ghost use Rattle.ped_bodies.specs.ped_laws.specs.Plain.Executions.{IsInside, IsPlaceWith, LieInRanges, HasValueDuring};
ghost use Rattle.ped_loop_runs.specs.OneOut.{IsNextIn};

/// A plain bound of a DO that is in another one is a plain bound of that one, too, where it doesn't name its variable:
/// it has the same interval there, and so, one loop further out, it evaluates without a fault to the value that it has
/// in each iteration of the outer loop, also where there is none. This is so for the first statement in a DO; the sides
/// of a sum or a difference that is plain are plain; and an iteration further in gives the values that places around it
/// give. For the bounds of loops that are interchanged, whose inner bounds may name the outer variable next to
/// something else.
pub fn plain_one_out()
    ensures next { (t : ProgramTree) (l : ℕ) (outer : LoopOf t l) → 0 < statements_count outer.body → IsNextIn t l outer (l + 1) }
    ensures plain { (constants : Values) (t : ProgramTree) (l : ℕ) (outer : LoopOf t l) (m : ℕ) (e : ExprTree) → IsNextIn t l outer m → IsPlain constants t m e → is_among outer.head.variable (expr_names e) ≡ false → IsPlain constants t l e }
    ensures interval { (constants : Values) (t : ProgramTree) (l : ℕ) (outer : LoopOf t l) (m : ℕ) (e : ExprTree) → IsNextIn t l outer m → is_among outer.head.variable (expr_names e) ≡ false → bound_interval (setting_round constants t l) (around_loop constants t l) e ≡ bound_interval (setting_round constants t m) (around_loop constants t m) e }
    ensures value { (t : ProgramTree) (data_bytes : List ℕ) → IsValid t → (l : ℕ) (outer : LoopOf t l) (m : ℕ) → IsNextIn t l outer m → (front : List Act) → IsEntry (setting_of t) t (store_at_start (lines data_bytes)) l front → (e : ExprTree) → IsPlain (setting_of t).constants t m e → expr_fits e ≡ true → is_among outer.head.variable (expr_names e) ≡ false → (told : List ℕ → ℤ) → LieInRanges (setting_of t).constants t l told
        → HasValueDuring (setting_of t) t l told (store_after front (store_at_start (lines data_bytes))) e }
    ensures fit { (t : ProgramTree) → IsValid t → (m : ℕ) (inner : LoopOf t m) → (expr_fits inner.head.first ≡ true) × (expr_fits inner.head.last ≡ true) }
    ensures sum { (constants : Values) (t : ProgramTree) (l : ℕ) (a b : ExprTree) → constant_value constants (Add a b) ≡ None → IsPlain constants t l (Add a b) → IsPlain constants t l a × IsPlain constants t l b }
    ensures difference { (constants : Values) (t : ProgramTree) (l : ℕ) (a b : ExprTree) → constant_value constants (Sub a b) ≡ None → IsPlain constants t l (Sub a b) → IsPlain constants t l a × IsPlain constants t l b }
    ensures further_in { (constants : Values) (t : ProgramTree) (l : ℕ) (told : List ℕ → ℤ) (scope : Scope) (f : Frame) → IsPlaceWith constants t l told scope → IsInside (setting_round constants t l) f → is_among f.variable (indices_of (nest_round t l)) ≡ false → IsPlaceWith constants t l told (f ∷ scope) }
{}
