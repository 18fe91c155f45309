//! Interleavings end, each with one outcome.

ghost use Rattle.std.specs.Prelude.{◌≡◌, ◌<◌, ℕ};
ghost use Rattle.ped_tree.specs.Tree.{ProgramTree};
ghost use Rattle.ped_eval.specs.ped_store.specs.Stores.{Store};
ghost use Rattle.ped_eval.specs.ped_store.specs.Acts.{Act};
ghost use Rattle.ped_eval.specs.Scopes.{Setting};
ghost use Rattle.ped_eval.specs.Outcomes.{Outcome};
ghost use Rattle.ped_interleavings.specs.Lefts.{Left};
ghost use Rattle.ped_interleavings.specs.Steps.{went, step};
ghost use Rattle.ped_interleavings.specs.Interleavings.{Standing, IsInterleavedFrom};
ghost use Rattle.ped_interleavings.specs.Weights.{left_weight};

/// Each step lowers the weight of the rest, whatever the choice and the store. So a run ends with every list of
/// choices, races or none.
pub fn lighter()
    ensures { (p : Setting) (l : Left) (c : ℕ) (s : Store) (a : Act) (rest : Left) → step p l c s ≡ went a rest → left_weight rest < left_weight l }
{}

/// A run of a program ends with at most one outcome, wherever it is: its choices leave nothing open.
pub fn one_interleaving()
    ensures { (t : ProgramTree) (st : Standing) (o other : Outcome) → IsInterleavedFrom t st o → IsInterleavedFrom t st other → o ≡ other }
{}

/// A run of a program ends with an outcome, wherever it is.
pub fn an_interleaving()
    ensures { (t : ProgramTree) (st : Standing) → (o : Outcome) × IsInterleavedFrom t st o }
{}
