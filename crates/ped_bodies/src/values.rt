//! Values of expressions at another place, and values that places determine.

ghost use Rattle.std.specs.Prelude.{◌≡◌, ℕ, ℤ, pos, neg_ℤ, ◌+ℤ◌, ◌-ℤ◌, ◌*ℤ◌, List, ◌++◌, Bool, true, false, Some, None, Ok};
ghost use Rattle.ped_steps.specs.Runs.Pasting.{AgreeInBounds};
ghost use Rattle.ped_steps.specs.ped_flow.specs.ped_base.specs.Arithmetic.Arithmetic.{is_in_range};
ghost use Rattle.ped_steps.specs.ped_flow.specs.ped_base.specs.Lists.{is_among};
ghost use Rattle.ped_steps.specs.ped_flow.specs.ped_tree.specs.Constants.NamedConstants.{value_named};
ghost use Rattle.ped_steps.specs.ped_flow.specs.ped_tree.specs.NamesIn.{expr_names};
ghost use Rattle.ped_steps.specs.ped_flow.specs.ped_tree.specs.Tree.{ExprTree, ExprTrees, Int, Var, Neg, Add, Sub, Mul, Head};
ghost use Rattle.ped_steps.specs.ped_symbolic.specs.Arithmetic.{literal, times_of};
ghost use Rattle.ped_steps.specs.ped_store.specs.Cells.{Cell};
ghost use Rattle.ped_steps.specs.ped_store.specs.Stores.{Store};
ghost use Rattle.ped_steps.specs.ped_eval.specs.Loops.{Limits, limits};
ghost use Rattle.ped_steps.specs.ped_eval.specs.Scopes.{Setting, Scope, cell_of, index_value, names_in};
ghost use Rattle.ped_steps.specs.ped_eval.specs.Values.{value};
ghost use Rattle.ped_bodies.specs.Likewise.{NamesScalars, Meet, ComesLikewise};
ghost use Rattle.ped_bodies.specs.Moving.{TellTheSame, ToldInside};
ghost use Rattle.ped_bodies.specs.Rewriting.{IsRewriting, unchanged, head_rewritten};
ghost use Rattle.ped_bodies.specs.Standing.{EvaluateLikewise};

/// An expression that has a value comes, rewritten and at another place, to the same value, from each store that holds
/// what it sees there; so do the bounds of a DO. An expression that isn't rewritten evaluates likewise where both
/// places give the same. For bounds that a new loop reads, as that of an inner loop one loop further out.
pub fn values_likewise()
    ensures value { (h : ExprTree → ExprTree) (hs : ExprTrees → ExprTrees) (name : Cell → Cell) (idle : Cell → Bool) (p q : Setting) (scope other : Scope) → IsRewriting h hs → NamesScalars name → p.constants ≡ q.constants → (e : ExprTree) → AgreeInBounds p.bounds q.bounds (expr_names e) → EvaluateLikewise h name idle q (expr_names e) scope other
        → (s : Store) (v : ℤ) → (value (names_in p scope) e s).result ≡ Ok v → ComesLikewise name idle (value (names_in p scope) e s).seen (value (names_in q other) (h e)) v }
    ensures bounds { (h : ExprTree → ExprTree) (hs : ExprTrees → ExprTrees) (name : Cell → Cell) (idle : Cell → Bool) (p q : Setting) (scope other : Scope) → IsRewriting h hs → NamesScalars name → p.constants ≡ q.constants → (d : Head) → AgreeInBounds p.bounds q.bounds (expr_names d.first ++ expr_names d.last)
        → EvaluateLikewise h name idle q (expr_names d.first ++ expr_names d.last) scope other → (s : Store) (l : Limits) → (limits (names_in p scope) d s).result ≡ Ok l → ComesLikewise name idle (limits (names_in p scope) d s).seen (limits (names_in q other) (head_rewritten h d)) l }
    ensures moved { (name : Cell → Cell) (idle : Cell → Bool) (q : Setting) (names : List (List ℕ)) (scope other : Scope) → TellTheSame names scope other → ((x : List ℕ) → is_among x names ≡ true → Meet name idle (cell_of scope x) (cell_of other x)) → EvaluateLikewise unchanged name idle q names scope other }
{}

/// What stands for the variable of a DO has a value that places give, also further inside: literals; the variable
/// itself, by its value at the new place; another variable of a DO around the place that no DO inside has; multiples of
/// these; and sums, differences, products and negations of such expressions, where they don't overflow.
pub fn values_told_inside()
    ensures number { (q : Setting) (loops : List (List ℕ)) (x : List ℕ) (other : Scope) (n : ℕ) → ToldInside q loops x other (Int n) (pos n) }
    ensures literal { (q : Setting) (loops : List (List ℕ)) (x : List ℕ) (other : Scope) (n : ℤ) → is_in_range n ≡ true → ToldInside q loops x other (literal n) n }
    ensures itself { (q : Setting) (loops : List (List ℕ)) (x : List ℕ) (other : Scope) (v : ℤ) → value_named q.constants x ≡ None → index_value other x ≡ Some v → ToldInside q loops x other (Var x) v }
    ensures another { (q : Setting) (loops : List (List ℕ)) (x : List ℕ) (other : Scope) (w : List ℕ) (v : ℤ) → value_named q.constants w ≡ None → index_value other w ≡ Some v → is_among w loops ≡ false → ToldInside q loops x other (Var w) v }
    ensures multiple { (q : Setting) (loops : List (List ℕ)) (x : List ℕ) (other : Scope) (k : ℕ) (w : List ℕ) (v : ℤ) → is_in_range (pos k *ℤ v) ≡ true → ToldInside q loops x other (Var w) v → ToldInside q loops x other (times_of k (Var w)) (pos k *ℤ v) }
    ensures negation { (q : Setting) (loops : List (List ℕ)) (x : List ℕ) (other : Scope) (e : ExprTree) (u : ℤ) → is_in_range (neg_ℤ u) ≡ true → ToldInside q loops x other e u → ToldInside q loops x other (Neg e) (neg_ℤ u) }
    ensures sum { (q : Setting) (loops : List (List ℕ)) (x : List ℕ) (other : Scope) (a b : ExprTree) (u v : ℤ) → is_in_range (u +ℤ v) ≡ true → ToldInside q loops x other a u → ToldInside q loops x other b v → ToldInside q loops x other (Add a b) (u +ℤ v) }
    ensures difference { (q : Setting) (loops : List (List ℕ)) (x : List ℕ) (other : Scope) (a b : ExprTree) (u v : ℤ) → is_in_range (u -ℤ v) ≡ true → ToldInside q loops x other a u → ToldInside q loops x other b v → ToldInside q loops x other (Sub a b) (u -ℤ v) }
    ensures product { (q : Setting) (loops : List (List ℕ)) (x : List ℕ) (other : Scope) (a b : ExprTree) (u v : ℤ) → is_in_range (u *ℤ v) ≡ true → ToldInside q loops x other a u → ToldInside q loops x other b v → ToldInside q loops x other (Mul a b) (u *ℤ v) }
{}
