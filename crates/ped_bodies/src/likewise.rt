//! Statements at another place, with their expressions rewritten.

ghost use Rattle.std.specs.Prelude.{◌≡◌, ℕ, List, Bool, false};
ghost use Rattle.ped_steps.specs.ped_flow.specs.ped_tree.specs.Tree.{ExprTree, ExprTrees, StmtTrees};
ghost use Rattle.ped_steps.specs.ped_flow.specs.ped_tree.specs.NamesIn.{stmts_names};
ghost use Rattle.ped_steps.specs.ped_symbolic.specs.Substitution.{substituted, statements_substituted};
ghost use Rattle.ped_steps.specs.ped_store.specs.Cells.{Cell};
ghost use Rattle.ped_steps.specs.ped_store.specs.Stores.{Store};
ghost use Rattle.ped_steps.specs.ped_flow.specs.ped_tree.specs.NamesIn.{all_loop_variables};
ghost use Rattle.ped_steps.specs.ped_eval.specs.Runs.{run_all};
ghost use Rattle.ped_steps.specs.ped_eval.specs.Scopes.{Setting, Scope, turns_of};
ghost use Rattle.ped_steps.specs.ped_laws.specs.Runs.Replaying.{finish_of, has_fault};
ghost use Rattle.ped_bodies.specs.Likewise.{NamesScalars, DoesLikewise};
ghost use Rattle.ped_bodies.specs.Moving.{TellTheSame, GivesWayTo, CellsCorrespond};
ghost use Rattle.ped_bodies.specs.Rewriting.{IsRewriting, statements_rewritten, MayBeRewritten};
ghost use Rattle.ped_bodies.specs.Standing.{SettingsAgree, StandRewritten, GoLikewise};

/// Statements that are rewritten at another place do there likewise what they did: from each store that the new acts
/// fit, the same steps on cells that correspond, in iterations that correspond; and they end alike, if they met no
/// fault before. For each step that moves the body of a loop to other iterations, or substitutes in it.
pub fn statements_likewise()
    ensures rewritten { (h : ExprTree → ExprTree) (hs : ExprTrees → ExprTrees) (name : Cell → Cell) (idle : Cell → Bool) (f : ℕ → ℕ) (p q : Setting) (ts : StmtTrees) (n m : ℕ) (scope other : Scope) → IsRewriting h hs → NamesScalars name → StandRewritten h name idle f p q ts n m scope other
        → (s : Store) → has_fault (finish_of (run_all p ts n scope s).ending) ≡ false → DoesLikewise name idle f (turns_of scope) (turns_of other) (run_all p ts n scope s).acts (finish_of (run_all p ts n scope s).ending) (run_all q (statements_rewritten h ts) m other) }
    ensures going_on { (h : ExprTree → ExprTree) (hs : ExprTrees → ExprTrees) (name : Cell → Cell) (idle : Cell → Bool) (f : ℕ → ℕ) (p q : Setting) (ts : StmtTrees) (n m : ℕ) (scope other : Scope) → IsRewriting h hs → NamesScalars name → StandRewritten h name idle f p q ts n m scope other
        → GoLikewise name idle f p q ts (statements_rewritten h ts) n m scope other }
{}

/// The same of statements that aren't rewritten, where both places give the same values to DO variables; and of
/// statements in which the variable of a DO gives way to an expression that has its value at the other place.
pub fn bodies_likewise()
    ensures moved { (f : ℕ → ℕ) (p q : Setting) (ts : StmtTrees) (n m : ℕ) (name : Cell → Cell) (idle : Cell → Bool) (scope other : Scope) → SettingsAgree f p q ts n m → NamesScalars name → TellTheSame (stmts_names ts) scope other → CellsCorrespond name idle f (stmts_names ts) scope other
        → GoLikewise name idle f p q ts ts n m scope other }
    ensures substituted { (f : ℕ → ℕ) (p q : Setting) (ts : StmtTrees) (n m : ℕ) (x : List ℕ) (by : ExprTree) (name : Cell → Cell) (idle : Cell → Bool) (scope other : Scope) → SettingsAgree f p q ts n m → NamesScalars name → MayBeRewritten (substituted x by) p.constants ts
        → GivesWayTo q (stmts_names ts) (all_loop_variables ts) x by scope other → CellsCorrespond name idle f (stmts_names ts) scope other → GoLikewise name idle f p q ts (statements_substituted x by ts) n m scope other }
{}
