//! What holds for a valid program, and how its names with their kinds are looked up. The functions do nothing; their
//! contracts are the laws.

ghost use Rattle.std.specs.Prelude.{◌≡◌, ℕ, List, true, false, None, is_some};
ghost use Rattle.ped_base.specs.Lists.{is_among};
ghost use Rattle.ped_tree.specs.Tree.{ProgramTree};
ghost use Rattle.ped_tree.specs.Accesses.{constant_names};
ghost use Rattle.ped_tree.specs.Constants.NamedConstants.{value_named};
ghost use Rattle.ped_symbols.specs.Entries.{entry_of};
ghost use Rattle.ped_symbols.specs.Kinds.{at_last, kind_in, kinds_of, names_at, names_of};
ghost use Rattle.ped_symbols.specs.Sites.{program_sites};
ghost use Rattle.ped_symbols.specs.NameRefusals.{IsValid};
ghost use Rattle.ped_symbols.specs.RightUses.RightPrograms.{IsRight};

/// In a valid program each name occurs where names of its kind may occur: left sides, items of READ, DO variables,
/// PRIVATE names, and names in expressions, elements with as many subscripts as their array has dimensions. Each
/// increment is a constant within 2147483647 of zero and not 0. At most six DO loops are nested in one another, and
/// there are at most 4,000 statements. Names in SAVE are scalars or arrays. Arrays have bounds in order, and at most
/// 2^23 elements together.
pub fn right_where_valid()
    ensures { (t : ProgramTree) → IsValid t → IsRight t }
{}

/// A name is found among the names of a program with the kind that it has there, and one that doesn't occur isn't found.
pub fn kind_found()
    ensures { (t : ProgramTree) → (x : List ℕ) → entry_of (kinds_of t) x ≡ kind_in t x }
{}

/// In a valid program each named constant has a value, and no other name has one (ANSI X3.9-1978, section 8.6).
pub fn constants_have_values()
    ensures named { (t : ProgramTree) (x : List ℕ) → IsValid t → is_among x (constant_names t.decls) ≡ true → is_some (value_named (at_last t).values x) ≡ true }
    ensures others { (t : ProgramTree) (x : List ℕ) → is_among x (constant_names t.decls) ≡ false → value_named (at_last t).values x ≡ None }
{}

/// What names stand for depends only on the declarations and on which names occur: programs with the same declarations,
/// in which the same names occur, have the same constants, and in both each name stands for the same.
pub fn kinds_told_by_names()
    ensures values { (t u : ProgramTree) → t.decls ≡ u.decls → (at_last u).values ≡ (at_last t).values }
    ensures kinds { (t u : ProgramTree) → t.decls ≡ u.decls → ((y : List ℕ) → is_among y (names_of u) ≡ is_among y (names_of t)) → (y : List ℕ) → kind_in u y ≡ kind_in t y }
    ensures names { (t : ProgramTree) (y : List ℕ) → is_among y (names_of t) ≡ is_among y (names_at (program_sites t)) }
{}
