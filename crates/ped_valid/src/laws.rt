//! What the definition of valid programs determines, for every text and every tree. Each function here does
//! nothing; its contract is the law.

ghost use Rattle.std.specs.Prelude.{◌⊎◌, ℕ, List};
ghost use Rattle.ped_tree.specs.Tree.{ProgramTree};
ghost use Rattle.ped_symbols.specs.NameRefusals.{IsValid};
ghost use Rattle.ped_valid.specs.Verdicts.{HasOneValidTree, HasOneFirstRefusal};
ghost use Rattle.ped_valid.specs.Validity.{PrintsValid};

/// Every text has exactly one valid tree or exactly one first refusal, and never both.
pub fn one_valid_tree_or_one_refusal()
    ensures { (text : List ℕ) → HasOneValidTree text ⊎ HasOneFirstRefusal text }
{}

/// The printed text of each valid tree reads as that tree, which is valid, and as no other.
pub fn printed_program_is_valid()
    ensures { (t : ProgramTree) → IsValid t → PrintsValid t }
{}
