//! Affine forms of subscripts give their values, in whatever store and iterations they are evaluated.

ghost use Rattle.std.specs.Prelude.{◌≡◌, ℕ, ℤ, List, Some, Ok};
ghost use Rattle.ped_flow.specs.ped_tree.specs.Tree.{ExprTree};
ghost use Rattle.ped_eval.specs.ped_store.specs.Stores.{Store};
ghost use Rattle.ped_eval.specs.Scopes.{Names};
ghost use Rattle.ped_eval.specs.Values.{value};
ghost use Rattle.ped_flow.specs.ped_affine.specs.AffineForms.{Terms, AffineForm, affine_of};
ghost use Rattle.ped_laws.specs.Covering.Weights.{form_value, HaveValues};

/// An expression that has an affine form has its value by that form, where it has one.
pub fn values_by_forms()
    ensures { (t : Terms) (values : List ℕ → ℤ) (g : Names) (u : Store) (e : ExprTree) (f : AffineForm) (n : ℤ) → HaveValues t values g u → affine_of t e ≡ Some f → (value g e u).result ≡ Ok n → n ≡ form_value t.unknowns values f }
{}
