//! What the definitions in `specs/` determine. The functions do nothing; their contracts are the laws.

ghost use Rattle.std.specs.Prelude.{◌≡◌, ℕ, List, Option};
ghost use Rattle.ped_tree.specs.Tree.{ProgramTree};
ghost use Rattle.ped_graph.specs.DependencePane.{IsDependencePane, IsDependencePaneOf};

/// A program has one dependence pane: the direction vectors that no subscript pair excludes, the
/// dependences that they are divided into and the rows of these leave no choice.
pub fn one_dependence_pane()
    ensures { (t : ProgramTree) (p q : List ℕ) → IsDependencePane t p → IsDependencePane t q → p ≡ q }
{}

/// A program has one dependence pane of each statement, too.
pub fn one_dependence_pane_of()
    ensures { (t : ProgramTree) (of : Option ℕ) (p q : List ℕ) → IsDependencePaneOf t of p → IsDependencePaneOf t of q → p ≡ q }
{}
