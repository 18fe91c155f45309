//! What the definitions in `specs/` determine. The function does nothing; its contract is the law.

ghost use Rattle.std.specs.Prelude.{◌≡◌, ◌<◌, ◌⊎◌, ◌↔◌, ℕ, length, None};
ghost use Rattle.ped_tree.specs.Tree.{StmtTree, StmtTrees, ProgramTree};
ghost use Rattle.ped_tree.specs.Numbering.{numbered, all_numbered, statement_with, statement_count, statements_count};

/// Statements are numbered from 1 to their count: as many have a number as are counted, and there is
/// no statement with the number 0 or one above the count.
pub fn numbers_end_at_count()
    ensures statement { (s : StmtTree) → length (numbered s) ≡ statement_count s }
    ensures statements { (ss : StmtTrees) → length (all_numbered ss) ≡ statements_count ss }
    ensures none { (number : ℕ) (t : ProgramTree) → (statement_with number t ≡ None) ↔ ((number ≡ 0) ⊎ (statements_count t.body < number)) }
{}
