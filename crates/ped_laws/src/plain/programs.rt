//! Plain bounds in runs of valid programs.

ghost use Rattle.std.specs.Prelude.{◌≡◌, ◌⊎◌, ℕ, ℤ, List};
ghost use Rattle.std.specs.Str.Lines.{lines};
ghost use Rattle.ped_flow.specs.ped_tree.specs.Tree.{ExprTree, ProgramTree};
ghost use Rattle.ped_graph.specs.ped_symbols.specs.NameRefusals.{IsValid};
ghost use Rattle.ped_eval.specs.ped_store.specs.Stores.{store_at_start};
ghost use Rattle.ped_eval.specs.ped_store.specs.Acts.{Act};
ghost use Rattle.ped_laws.specs.Acts.Fitting.{store_after};
ghost use Rattle.ped_eval.specs.Outcomes.{setting_of};
ghost use Rattle.ped_flow.specs.PlainBounds.{IsPlain};
ghost use Rattle.ped_flow.specs.Questions.{LoopOf};
ghost use Rattle.ped_laws.specs.FlowRuns.Entries.{IsEntry};
ghost use Rattle.ped_laws.specs.Plain.Executions.{LieInRanges, HasValueDuring};

/// In a run of a valid program, when an outermost DO has been entered, a plain bound of a DO in it, or of it, has one
/// value for all values in range of the DO variables around that DO, and it depends on these alone: to it the bound
/// evaluates, without a fault, in each store of the execution and at each place that gives these values, also where
/// the run never reaches the bound.
pub fn bounds_in_valid_programs()
    ensures { (t : ProgramTree) (data_bytes : List ℕ) → IsValid t → (l : ℕ) (front : List Act) → IsEntry (setting_of t) t (store_at_start (lines data_bytes)) l front → (d : LoopOf t l) (e : ExprTree) → (e ≡ d.head.first) ⊎ (e ≡ d.head.last) → IsPlain (setting_of t).constants t l e → (told : List ℕ → ℤ) → LieInRanges (setting_of t).constants t l told
        → HasValueDuring (setting_of t) t l told (store_after front (store_at_start (lines data_bytes))) e }
{}
