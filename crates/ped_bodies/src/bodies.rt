//! Loop bodies that steps move to other iterations, or in which they substitute. The names, numbers and places of each
//! step are in `specs/Moving.antt`.

ghost use Rattle.std.specs.Prelude.{◌≡◌, ℕ, ◌+◌, ◌-◌, ◌/◌, ◌%◌, ◌==◌, List, [], ◌∷◌, Bool, false, None, if◌then◌else◌};
ghost use Rattle.ped_steps.specs.ped_flow.specs.ped_base.specs.Lists.{is_same_text, is_among};
ghost use Rattle.ped_steps.specs.ped_flow.specs.ped_tree.specs.Constants.NamedConstants.{value_named};
ghost use Rattle.ped_steps.specs.ped_flow.specs.ped_tree.specs.NamesIn.{stmts_names};
ghost use Rattle.ped_steps.specs.ped_flow.specs.ped_tree.specs.Tree.{ExprTree, Var, StmtTrees};
ghost use Rattle.ped_steps.specs.ped_symbolic.specs.Substitution.{substituted, statements_substituted};
ghost use Rattle.ped_steps.specs.ped_laws.specs.Acts.Renaming.{own_name};
ghost use Rattle.ped_steps.specs.ped_laws.specs.Acts.Sets.{nothing};
ghost use Rattle.ped_steps.specs.ped_store.specs.Acts.{iterations_of};
ghost use Rattle.ped_steps.specs.ped_store.specs.Cells.{Cell, Iteration};
ghost use Rattle.ped_steps.specs.ped_flow.specs.ped_tree.specs.NamesIn.{all_loop_variables};
ghost use Rattle.ped_steps.specs.ped_eval.specs.Scopes.{Setting, Frame, Scope, turns_of};
ghost use Rattle.ped_steps.specs.Runs.Exchanging.{IsExchange, AreExchanged};
ghost use Rattle.ped_bodies.specs.Moving.{own_number, is_cell_among, moved_behind, turned, transposed, in_strips, peeled, in_loop, HaveNoCopies, HaveSameCopies, TellAlike, TellTheSame, ToldInside, GivesWayTo, IsOfTrips, IsInsideTrips, IsOfPairs, NamesApart, TellNumbers};
ghost use Rattle.ped_bodies.specs.Rewriting.{MayBeRewritten};
ghost use Rattle.ped_bodies.specs.Standing.{SettingsAgree, GoLikewise};

/// A body does likewise in another iteration: of the same loop, where that is reversed; of another loop, as where it is
/// distributed; of a strip; of the rest of a loop after a peeled iteration; and of two loops that are
/// interchanged. In the order of the clauses.
pub fn bodies_in_other_iterations()
    ensures reversed { (p q : Setting) (ts : StmtTrees) (n m : ℕ) (scope : Scope) (l k : ℕ) (r z : Frame) → SettingsAgree own_number p q ts n m → r.turn.statement ≡ l → z.turn.statement ≡ l → z.turn.number ≡ k + 1 - r.turn.number → TellAlike r z → z.private ≡ r.private
        → GoLikewise (moved_behind (iterations_of (turns_of scope)) (turned l k)) nothing own_number p q ts ts n m (r ∷ scope) (z ∷ scope) }
    ensures distributed { (p q : Setting) (ts : StmtTrees) (n m : ℕ) (scope : Scope) (l k : ℕ) (r z : Frame) → SettingsAgree own_number p q ts n m → r.turn.statement ≡ l → z.turn.statement ≡ k → z.turn.number ≡ r.turn.number → TellAlike r z → z.private ≡ r.private
        → GoLikewise (moved_behind (iterations_of (turns_of scope)) (in_loop l k)) nothing own_number p q ts ts n m (r ∷ scope) (z ∷ scope) }
    ensures stripped { (p q : Setting) (ts : StmtTrees) (n m : ℕ) (scope : Scope) (l inner size : ℕ) (r strip z : Frame) → SettingsAgree own_number p q ts n m → r.turn.statement ≡ l → strip.turn.statement ≡ l → z.turn.statement ≡ inner → strip.turn.number ≡ (r.turn.number - 1) / size + 1
        → z.turn.number ≡ (r.turn.number - 1) % size + 1 → TellAlike r z → r.private ≡ [] → strip.private ≡ [] → z.private ≡ [] → is_among strip.variable (stmts_names ts) ≡ false
        → GoLikewise (moved_behind (iterations_of (turns_of scope)) (in_strips l inner size)) nothing own_number p q ts ts n m (r ∷ scope) (z ∷ (strip ∷ scope)) }
    ensures unpeeled { (p q : Setting) (ts : StmtTrees) (n m : ℕ) (scope : Scope) (l k : ℕ) (f : ℕ → ℕ) (r z : Frame) → SettingsAgree own_number p q ts n m → r.turn.statement ≡ l → z.turn.statement ≡ l → (r.turn.number == k) ≡ false → z.turn.number ≡ (if k == 1 then r.turn.number - 1 else r.turn.number) → TellAlike r z → z.private ≡ r.private
        → GoLikewise (moved_behind (iterations_of (turns_of scope)) (peeled l k f)) nothing own_number p q ts ts n m (r ∷ scope) (z ∷ scope) }
    ensures interchanged { (p q : Setting) (ts : StmtTrees) (n m : ℕ) (scope : Scope) (outer inner : ℕ) (column row : ℕ → ℕ → ℕ) (j i r z : Frame) → SettingsAgree own_number p q ts n m → i.turn.statement ≡ outer → z.turn.statement ≡ outer → r.turn.statement ≡ inner → z.turn.number ≡ column i.turn.number j.turn.number
        → r.turn.number ≡ row i.turn.number j.turn.number → TellAlike i r → TellAlike j z → is_same_text i.variable j.variable ≡ false → HaveNoCopies (j ∷ (i ∷ [])) → HaveNoCopies (r ∷ (z ∷ []))
        → GoLikewise (moved_behind (iterations_of (turns_of scope)) (transposed outer inner column row)) nothing own_number p q ts ts n m (j ∷ (i ∷ scope)) (r ∷ (z ∷ scope)) }
{}

/// Statements do likewise in the same iterations where some names have other copies; which DO is parallel doesn't
/// count. The cells of these names are idle. For the body of a loop that becomes parallel or serial, and for what is
/// around a loop in which a step brings or takes a name. And they do likewise where cells have changed places, as where
/// a scalar becomes private.
pub fn bodies_with_other_copies()
    ensures idle { (p q : Setting) (ts : StmtTrees) (n m : ℕ) (apart : List (List ℕ)) (scope other : Scope) → SettingsAgree own_number p q ts n m → HaveSameCopies apart scope other → TellTheSame (stmts_names ts) scope other → GoLikewise own_name (is_cell_among apart) own_number p q ts ts n m scope other }
    ensures exchanged { (p q : Setting) (ts : StmtTrees) (n m : ℕ) (name : Cell → Cell) (scope other : Scope) → SettingsAgree own_number p q ts n m → IsExchange name → AreExchanged name scope other → GoLikewise name nothing own_number p q ts ts n m scope other }
{}

/// A body with an expression in place of a DO variable does likewise: outside the loop, where an iteration is peeled off,
/// whose copies count by new numbers; in the same iterations, where the variable has another value, as in a loop that is
/// skewed; in the same iteration of a loop that has got another variable; and in the loop with which its own one is fused.
pub fn bodies_substituted()
    ensures peeled { (f : ℕ → ℕ) (p q : Setting) (ts : StmtTrees) (n m : ℕ) (scope : Scope) (l k : ℕ) (r : Frame) (by : ExprTree) → SettingsAgree f p q ts n m → r.turn.statement ≡ l → r.turn.number ≡ k → r.private ≡ [] → MayBeRewritten (substituted r.variable by) p.constants ts → value_named q.constants r.variable ≡ None
        → ToldInside q (all_loop_variables ts) r.variable scope by r.turn.value → GoLikewise (moved_behind (iterations_of (turns_of scope)) (peeled l k f)) nothing f p q ts (statements_substituted r.variable by ts) n m (r ∷ scope) scope }
    ensures skewed { (p q : Setting) (ts : StmtTrees) (n m : ℕ) (x : List ℕ) (by : ExprTree) (scope other : Scope) → SettingsAgree own_number p q ts n m → HaveSameCopies [] scope other → MayBeRewritten (substituted x by) p.constants ts → GivesWayTo q (stmts_names ts) (all_loop_variables ts) x by scope other
        → GoLikewise own_name nothing own_number p q ts (statements_substituted x by ts) n m scope other }
    ensures renamed { (p q : Setting) (ts : StmtTrees) (n m : ℕ) (scope : Scope) (r z : Frame) → SettingsAgree own_number p q ts n m → z.turn ≡ r.turn → z.private ≡ r.private → MayBeRewritten (substituted r.variable (Var z.variable)) p.constants ts → value_named q.constants r.variable ≡ None
        → value_named q.constants z.variable ≡ None → is_among z.variable (all_loop_variables ts) ≡ false → is_among z.variable (stmts_names ts) ≡ false → GoLikewise own_name nothing own_number p q ts (statements_substituted r.variable (Var z.variable) ts) n m (r ∷ scope) (z ∷ scope) }
    ensures fused { (p q : Setting) (ts : StmtTrees) (n m : ℕ) (scope : Scope) (l k : ℕ) (r z : Frame) → SettingsAgree own_number p q ts n m → r.turn.statement ≡ l → z.turn.statement ≡ k → z.turn.number ≡ r.turn.number → z.turn.value ≡ r.turn.value → z.private ≡ r.private → MayBeRewritten (substituted r.variable (Var z.variable)) p.constants ts
        → value_named q.constants r.variable ≡ None → value_named q.constants z.variable ≡ None → is_among z.variable (all_loop_variables ts) ≡ false → is_among z.variable (stmts_names ts) ≡ false
        → GoLikewise (moved_behind (iterations_of (turns_of scope)) (in_loop l k)) nothing own_number p q ts (statements_substituted r.variable (Var z.variable) ts) n m (r ∷ scope) (z ∷ scope) }
{}

/// The names that steps give the copies of a loop's trips are different: where the loop is reversed, where its
/// iterations become those of another loop, where it is cut into strips, where an iteration is peeled off, whose copies
/// count by numbers that determine the old ones and are not the loop's, and where two loops are interchanged. For
/// exchanging lists, which asks that names are one to one on the cells that the acts touch.
pub fn names_of_trips_apart()
    ensures reversed { (front : List Iteration) (l n : ℕ) → NamesApart (IsOfTrips l n) front (moved_behind front (turned l n)) }
    ensures in_another_loop { (front : List Iteration) (l k n : ℕ) → NamesApart (IsOfTrips l n) front (moved_behind front (in_loop l k)) }
    ensures stripped { (front : List Iteration) (l inner size n : ℕ) → NamesApart (IsOfTrips l n) front (moved_behind front (in_strips l inner size)) }
    ensures peeled { (front : List Iteration) (l n k : ℕ) (f : ℕ → ℕ) → ((i j : ℕ) → f i ≡ f j → i ≡ j) → ((i : ℕ) → f i ≡ l → ⊥) → NamesApart (IsInsideTrips l n) front (moved_behind front (peeled l k f)) }
    ensures interchanged { (front : List Iteration) (outer inner : ℕ) (done : ℕ → ℕ → Bool) (column row : ℕ → ℕ → ℕ) → TellNumbers done column row → NamesApart (IsOfPairs outer inner done) front (moved_behind front (transposed outer inner column row)) }
{}
