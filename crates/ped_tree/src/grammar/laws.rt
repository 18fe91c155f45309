//! What the definitions in `specs/` determine. Each function here does nothing; its contract is the
//! law.

ghost use Rattle.std.specs.Prelude.{◌≡◌, [], ℕ, List, Some, None, false};
ghost use Rattle.ped_tree.specs.Tree.{ProgramTree};
ghost use Rattle.ped_tree.specs.Grammar.Former.{FormerReads};
ghost use Rattle.ped_tree.specs.Grammar.Reading.{OneItem, Reads, Refuses};
ghost use Rattle.ped_tree.specs.Grammar.Refusal.{Finding, first_of, is_before, IsAmong};

/// The first of findings is one of them, and none of them comes before it, by line and then by number.
/// Where there is no first one, there are none.
pub fn first_finding_is_least()
    ensures least { (findings : List Finding) (r : Finding) → first_of findings ≡ Some r →
        IsAmong r findings
        × ((s : Finding) → IsAmong s findings → is_before s r ≡ false) }
    ensures none { (findings : List Finding) → first_of findings ≡ None → findings ≡ [] }
{}

/// A text has one first refusal at most. This is so where the text of a statement says one thing at most, which
/// `one_item` of ped_statements proves.
pub fn one_refusal()
    ensures { OneItem → (text : List ℕ) (a b : Finding) → Refuses text a → Refuses text b → a ≡ b }
{}

/// No text has both a tree and a first refusal. This is so where the text of a statement says one thing at most,
/// which `one_item` of ped_statements proves.
pub fn tree_or_refusal()
    ensures { OneItem → (text : List ℕ) (t : ProgramTree) (a : Finding) → Reads text t → Refuses text a → ⊥ }
{}

/// A text that read as a tree in the former source form, where names had at most six characters and each DO had a
/// label, reads as the same tree.
pub fn former_texts_read()
    ensures { (text : List ℕ) (t : ProgramTree) → FormerReads text t → Reads text t }
{}
