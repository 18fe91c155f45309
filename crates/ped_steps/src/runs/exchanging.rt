//! Cells that have been exchanged.

ghost use Rattle.std.specs.Prelude.{◌≡◌, ℕ};
ghost use Rattle.ped_tree.specs.Tree.{StmtTrees};
ghost use Rattle.ped_weaves.specs.ped_store.specs.Cells.{Cell};
ghost use Rattle.ped_weaves.specs.ped_store.specs.Stores.{Store};
ghost use Rattle.ped_weaves.specs.ped_eval.specs.Scopes.{Setting, Scope};
ghost use Rattle.ped_weaves.specs.ped_eval.specs.Runs.{run_all};
ghost use Rattle.ped_weaves.specs.ped_laws.specs.Runs.Replaying.{finish_of, Replays};
ghost use Rattle.ped_steps.specs.Runs.Exchanging.{IsExchange, AreExchanged, exchanged_store, exchanged_acts, exchanged_run};

/// Statements that are run where scalars stand for renamed cells do on these what they did on the old ones, from the
/// store in which the cells have changed places; and they do so from every store that these acts fit. For a scalar that
/// becomes private to the iterations of a DO: in each iteration its cell and its copy there have changed places.
pub fn cells_exchanged()
    ensures runs { (name : Cell → Cell) (p : Setting) (ts : StmtTrees) (n : ℕ) (scope other : Scope) → IsExchange name → AreExchanged name scope other → (s : Store) → run_all p ts n other s ≡ exchanged_run name (run_all p ts n scope (exchanged_store name s)) }
    ensures replays { (name : Cell → Cell) (p : Setting) (ts : StmtTrees) (n : ℕ) (scope other : Scope) → IsExchange name → AreExchanged name scope other → (s : Store) → Replays (run_all p ts n other) (exchanged_acts name (run_all p ts n scope s).acts) (finish_of (run_all p ts n scope s).ending) }
{}
