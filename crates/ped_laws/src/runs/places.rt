//! Places of acts: the numbers of statements, and the iterations around them.

ghost use Rattle.std.specs.Prelude.{◌≡◌, ◌<◌, ℕ, ◌+◌, []};
ghost use Rattle.ped_flow.specs.ped_tree.specs.Tree.{StmtTree, StmtTrees};
ghost use Rattle.ped_flow.specs.ped_tree.specs.Numbering.{statement_count, statements_count};
ghost use Rattle.ped_eval.specs.ped_store.specs.Stores.{Store};
ghost use Rattle.ped_eval.specs.ped_store.specs.Acts.{Act};
ghost use Rattle.ped_laws.specs.Acts.Orders.{IsIn};
ghost use Rattle.ped_laws.specs.Acts.Origins.{AreOfOneKind};
ghost use Rattle.ped_eval.specs.Scopes.{Setting, Scope};
ghost use Rattle.ped_eval.specs.Runs.{run, run_all};

/// Where each statement counts under a number of its own, iterations of one DO are all of a PARALLEL DO, or none is. So
/// two acts are in two iterations of a PARALLEL DO whichever is named first.
pub fn one_kind()
    ensures { (p : Setting) (ts : StmtTrees) (n : ℕ) (s : Store) (a b : Act) → ((m k : ℕ) → p.number m ≡ p.number k → m ≡ k) → IsIn a (run_all p ts n [] s).acts → IsIn b (run_all p ts n [] s).acts → AreOfOneKind a.place.turns b.place.turns }
{}

/// A piece of a run depends on the numbers of its own statements alone. For statements that a step doesn't touch: they
/// do in the new program what they did in the old one, where they count under their old numbers.
pub fn own_numbers()
    ensures statement { (p q : Setting) (t : StmtTree) (n m : ℕ) (scope : Scope) → p.bounds ≡ q.bounds → p.constants ≡ q.constants → ((k : ℕ) → k < statement_count t → p.number (n + k) ≡ q.number (m + k)) → run p t n scope ≡ run q t m scope }
    ensures statements { (p q : Setting) (ts : StmtTrees) (n m : ℕ) (scope : Scope) → p.bounds ≡ q.bounds → p.constants ≡ q.constants → ((k : ℕ) → k < statements_count ts → p.number (n + k) ≡ q.number (m + k)) → run_all p ts n scope ≡ run_all q ts m scope }
{}
