//! What the definitions of blocks determine. Each function here does nothing; its contract is the law.

ghost use Rattle.std.specs.Prelude.{◌≡◌, ◌⊎◌, ℕ, List, [], None, IsTrue};
ghost use Rattle.ped_tree.specs.Tree.{ProgramTree};
ghost use Rattle.ped_tree.specs.Grammar.Statement.{Statements};
ghost use Rattle.ped_tree.specs.Grammar.Items.{Entry};
ghost use Rattle.ped_tree.specs.Grammar.BlockForms.{body_keeps_labels};
ghost use Rattle.ped_tree.specs.Grammar.ProgramForms.{ProgramForm, program_entries, program_form_tree};
ghost use Rattle.ped_tree.specs.Grammar.ProgramRefusals.{program_refusals};
ghost use Rattle.ped_tree.specs.Grammar.Reading.{IsCutInto, OneItem, Reads, Refuses};
ghost use Rattle.ped_tree.specs.Grammar.Refusal.{Finding, first_of};

/// Statements nest in one way: whatever the DO loops and block IFs that they are divided into, the
/// tree is the same. Which statement ends a loop is settled by labels (ANSI X3.9-1978, section 11.10).
pub fn one_nesting()
    ensures { (saved : List (List ℕ)) (f g : ProgramForm) → program_entries f ≡ program_entries g → IsTrue (body_keeps_labels [] f.body) → IsTrue (body_keeps_labels [] g.body)
        → program_form_tree saved f ≡ program_form_tree saved g }
{}

/// Where nothing is refused, the statements nest: each case that no block takes is among the refusals.
pub fn nests_or_refused()
    ensures { (all : Statements) (entries : List Entry) → first_of (program_refusals all entries) ≡ None
        → (f : ProgramForm) × (program_entries f ≡ entries) × IsTrue (body_keeps_labels [] f.body) }
{}

/// A text has one tree at most.
pub fn one_tree()
    ensures { OneItem → (text : List ℕ) (t u : ProgramTree) → Reads text t → Reads text u → t ≡ u }
{}

/// A text whose statements are known has a tree or a first refusal.
pub fn reads_or_refused()
    ensures { (text : List ℕ) (entries : List Entry) → IsCutInto text entries → ((t : ProgramTree) × Reads text t) ⊎ ((a : Finding) × Refuses text a) }
{}
