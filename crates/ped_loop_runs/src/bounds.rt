//! What a plain bound reads.

ghost use Rattle.std.specs.Prelude.{◌≡◌, ℕ, ℤ, List, false};
ghost use Rattle.ped_bodies.specs.ped_flow.specs.ped_tree.specs.Tree.{ExprTree, Do, ProgramTree};
ghost use Rattle.ped_bodies.specs.ped_flow.specs.PlainBounds.{nest_round, outermost_or, IsPlainlyBuilt};
ghost use Rattle.ped_bodies.specs.ped_flow.specs.Questions.{LoopOf};
ghost use Rattle.ped_bodies.specs.ped_store.specs.Cells.{Cell};
ghost use Rattle.ped_bodies.specs.ped_store.specs.Stores.{Store};
ghost use Rattle.ped_bodies.specs.ped_eval.specs.Scopes.{Setting, Scope, names_in};
ghost use Rattle.ped_bodies.specs.ped_eval.specs.Values.{value};
ghost use Rattle.ped_bodies.specs.ped_eval.specs.Runs.{run};
ghost use Rattle.ped_bodies.specs.ped_laws.specs.Acts.Sets.{written};
ghost use Rattle.ped_bodies.specs.ped_laws.specs.Plain.Executions.{IsPlaceWith, IsDuring};
ghost use Rattle.ped_loop_runs.specs.Bounds.{IsOfFixed, ComeToTheSame};

/// A bound that is built as a plain one reads only own cells of scalars that keep their values in the outermost DO: no
/// act of it writes such a cell. So in an execution it gives the same value or fault, and reads the same, in each store
/// and at each place that gives the same values of the DO variables around it, also where names of other statements
/// count otherwise. Nothing is asked of intervals. For entries of loops that a step makes.
pub fn plain_reads_unwritten()
    ensures again { (p q : Setting) → q.constants ≡ p.constants → (t : ProgramTree) (l : ℕ) (e : ExprTree) → IsPlainlyBuilt p.constants t l e → (told : List ℕ → ℤ) (scope other : Scope) → IsPlaceWith p.constants t l told scope → IsPlaceWith p.constants t l told other → (s u w : Store) → IsDuring p t l s u → IsDuring p t l s w → ComeToTheSame (IsOfFixed p.constants t l) (value (names_in p scope) e u) (value (names_in q other) e w) }
    ensures unwritten { (p : Setting) (t : ProgramTree) (l : ℕ) (c : Cell) → IsOfFixed p.constants t l c → (loop : LoopOf t (outermost_or l (nest_round t l))) (n : ℕ) (scope : Scope) (s : Store) → written (run p (Do loop.head loop.body) n scope s).acts c ≡ false }
{}
