//! What the definitions in `specs/` determine. The function does nothing; its contract is the law.

ghost use Rattle.std.specs.Prelude.{◌≡◌, ℕ, Some};
ghost use Rattle.ped_tree.specs.Tree.{StmtTree, StmtTrees, ProgramTree};
ghost use Rattle.ped_tree.specs.Numbering.{statement_with};
ghost use Rattle.ped_steps.specs.Replacing.{program_with};

/// A new program depends on what replaces the one statement with a number, and not on what would replace another.
pub fn one_replacement()
    ensures { (by other : StmtTree → StmtTrees) (n : ℕ) (t : ProgramTree) → ((s : StmtTree) → statement_with n t ≡ Some s → by s ≡ other s) → program_with by n t ≡ program_with other n t }
{}
