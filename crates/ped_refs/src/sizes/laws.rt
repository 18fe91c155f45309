//! What follows from a program's limits about its size. The function does nothing; its contract is the law.

ghost use Rattle.std.specs.Prelude.{◌≡◌, true};
ghost use Rattle.ped_tree.specs.Tree.{ProgramTree};
ghost use Rattle.ped_tree.specs.Grammar.Fits.{fits};
ghost use Rattle.ped_refs.specs.Sizes.Sizes.{IsSmall};

/// A tree that fits has at most 4,000 statements, 64 references in each, and six DO loops around each.
pub fn small_where_it_fits()
    ensures { (t : ProgramTree) → fits t ≡ true → IsSmall t }
{}
