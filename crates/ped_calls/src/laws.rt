//! What the definition of files of program units determines, for every text. Each function here does nothing; its
//! contract is the law.

ghost use Rattle.std.specs.Prelude.{◌⊎◌, ◌↔◌, ℕ, List};
ghost use Rattle.ped_tree.specs.Tree.{ProgramTree};
ghost use Rattle.ped_links.specs.ped_valid.specs.Validity.{ReadsValid};
ghost use Rattle.ped_links.specs.ped_units.specs.Verdicts.{UnitFinding, RefusesUnits, IsExpansion};
ghost use Rattle.ped_calls.specs.Laws.{HasNoUnits, RefusesAsText, HasOneExpansion, HasOneUnitRefusal};

/// A text without CALL and SUBROUTINE statements expands to the valid tree that it reads as and to no other, and is
/// refused as a file of program units for what it is refused for as a program.
pub fn plain_files()
    ensures expands { (text : List ℕ) → HasNoUnits text → (t : ProgramTree) → IsExpansion text t ↔ ReadsValid text t }
    ensures refused { (text : List ℕ) → HasNoUnits text → (f : UnitFinding) → RefusesUnits text f ↔ RefusesAsText text f }
{}

/// Every text has exactly one expansion or exactly one first refusal, and never both.
pub fn one_expansion_or_one_refusal()
    ensures { (text : List ℕ) → HasOneExpansion text ⊎ HasOneUnitRefusal text }
{}
