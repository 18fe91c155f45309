//! What the definition of reading determines, for every text. Each function here does nothing; its
//! contract is the law.

ghost use Rattle.std.specs.Prelude.{◌⊎◌, ℕ, List};
ghost use Rattle.ped_parse.specs.Verdicts.{HasOneTree, HasOneRefusal};

/// Every text has exactly one tree or exactly one first refusal, and never both.
pub fn one_tree_or_one_refusal()
    ensures { (text : List ℕ) → HasOneTree text ⊎ HasOneRefusal text }
{}
