//! The value of a plain bound.

ghost use Rattle.std.specs.Prelude.{◌≡◌, ℕ, ℤ, List, ◌∷◌, false, true};
ghost use Rattle.ped_flow.specs.ped_tree.specs.Tree.{ExprTree, Head, StmtTrees, Do, ProgramTree};
ghost use Rattle.ped_flow.specs.ped_tree.specs.Numbering.{numbered};
ghost use Rattle.ped_flow.specs.ped_tree.specs.Grammar.Fits.{expr_fits};
ghost use Rattle.ped_eval.specs.ped_store.specs.Cells.{Scalar};
ghost use Rattle.ped_eval.specs.ped_store.specs.Stores.{Store};
ghost use Rattle.ped_eval.specs.ped_store.specs.Acts.{Act};
ghost use Rattle.ped_laws.specs.Acts.Fitting.{store_after};
ghost use Rattle.ped_eval.specs.Scopes.{Scope, Setting, names_in};
ghost use Rattle.ped_eval.specs.Evaluation.{Seen};
ghost use Rattle.ped_eval.specs.Loops.{Limits, entered_with, frame};
ghost use Rattle.ped_flow.specs.PlainBounds.{Values, nest_round, setting_round, outermost_or, IsPlain};
ghost use Rattle.ped_flow.specs.Questions.{LoopOf};
ghost use Rattle.ped_laws.specs.FlowRuns.Covering.{some_stops_in_loop};
ghost use Rattle.ped_laws.specs.FlowRuns.Entries.{IsEntry};
ghost use Rattle.ped_laws.specs.FlowRuns.Exits.{IsOneToOne};
ghost use Rattle.ped_laws.specs.Plain.PlainValues.{AreInRange, Stand, HasPlainValue};
ghost use Rattle.ped_laws.specs.Plain.Executions.{HaveValues, IsOneOf, IsInside, IsPlaceWith, LieInRanges, values_with, IsDuring, IsExecution, is_small, HasValueDuring};

/// For all values in range of the DO variables around it, and all numbers of 32 bits in the scalars that keep theirs, a
/// plain bound has one value: to that it evaluates, without a fault, wherever these hold, and a DO may have it as a
/// bound.
pub fn plain_bounds()
    ensures { (constants : Values) (t : ProgramTree) (l : ℕ) (e : ExprTree) (v : List ℕ → ℤ) → IsPlain constants t l e → expr_fits e ≡ true → AreInRange constants t l v → HasPlainValue constants t l v e }
{}

/// In each store of an execution of an outermost DO, at each place in it that gives a value for each DO around a DO,
/// these values hold together with those that the scalars held when the outermost DO was entered.
pub fn values_stand()
    ensures { (p : Setting) (t : ProgramTree) → IsOneToOne p.number → some_stops_in_loop t.body ≡ false → HaveValues p.constants t → (s : Store) (l : ℕ) (front : List Act) → IsEntry p t s l front → (told : List ℕ → ℤ) (scope : Scope) → IsPlaceWith p.constants t l told scope → (u : Store) → IsDuring p t l (store_after front s) u → Stand p.constants t l (values_with t told (store_after front s)) (names_in p scope) u }
{}

/// When an outermost DO has been entered, a plain bound in it has one value for all values in range of the DO variables
/// around it, and that depends on these alone: to it the bound evaluates, without a fault, in each store of the
/// execution and at each place that gives these values, also where the run never reaches the bound. The run begins
/// with a store whose scalars hold no numbers beyond 32 bits; at the start of a program they hold none.
pub fn bounds_in_executions()
    ensures { (p : Setting) (t : ProgramTree) → IsOneToOne p.number → some_stops_in_loop t.body ≡ false → HaveValues p.constants t → (s : Store) → ((x : List ℕ) → is_small (s (Scalar x)) ≡ true) → (l : ℕ) (front : List Act) → IsEntry p t s l front → (e : ExprTree) → IsPlain p.constants t l e → expr_fits e ≡ true → (told : List ℕ → ℤ) → LieInRanges p.constants t l told → HasValueDuring p t l told (store_after front s) e }
{}

/// In a run of a program, what comes with the entry of an outermost DO and after it begins with the acts of that DO,
/// done from the store that the acts before the entry have left. So the executions in the other laws are those of the
/// run.
pub fn entries_begin_executions()
    ensures { (p : Setting) → IsOneToOne p.number → (t : ProgramTree) (s : Store) (l : ℕ) (front : List Act) → (e : IsEntry p t s l front) → IsExecution p t l s front (e.act ∷ e.behind) }
{}

/// The iterations of a DO that is in an outermost DO, or is it, may be used at places of the other laws, whatever
/// limits the DO is entered with.
pub fn iterations_are_inside()
    ensures { (constants : Values) (t : ProgramTree) (l : ℕ) (outer : LoopOf t (outermost_or l (nest_round t l))) (h : Head) (b : StmtTrees) → IsOneOf (Do h b) (numbered (Do outer.head outer.body)) → (p : Setting) (n : ℕ) (seen : List Seen) (m : Limits) (k : ℕ) → IsInside (setting_round constants t l) (frame (entered_with p n h b seen m) k) }
{}
