//! What the forms of statements determine. Each function here does nothing; its contract is the law.

ghost use Rattle.std.specs.Prelude.{◌≡◌, ℕ, List};
ghost use Rattle.ped_tree.specs.Grammar.Items.{Item};
ghost use Rattle.ped_tree.specs.Grammar.StatementForms.{ReadsItem};

/// The text of a statement says one thing at most: no two forms of statements share a text with
/// different meanings.
pub fn one_item()
    ensures { (text : List ℕ) (i j : Item) → ReadsItem text i → ReadsItem text j → i ≡ j }
{}
