//! Which trees are programs of the profile, and what becomes of a program that is printed and read again.
//! The functions do nothing; their contracts are the laws.

ghost use Rattle.std.specs.Prelude.{◌≡◌, ◌↔◌, true};
ghost use Rattle.ped_lines.specs.ped_tree.specs.Tree.{ProgramTree};
ghost use Rattle.ped_lines.specs.ped_tree.specs.Grammar.Fits.{fits};
ghost use Rattle.ped_printed.specs.Programs.PrintedPrograms.{PrintsItself, IsRead};

/// A tree fits exactly where some text reads as it.
pub fn fits_where_read()
    ensures { (t : ProgramTree) → (fits t ≡ true) ↔ IsRead t }
{}

/// The printed text of each tree that fits reads as that tree, and as no other.
pub fn printed_program()
    ensures { (t : ProgramTree) → fits t ≡ true → PrintsItself t }
{}
