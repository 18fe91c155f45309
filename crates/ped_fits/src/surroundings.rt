//! What surrounds a statement: the declarations of its program, the enclosing DO loops, its nesting depth,
//! and how many statements come before it.

ghost use Rattle.std.specs.Prelude.{◌≡◌, ◌+◌, ◌<◌, ◌≤◌, ◌∷◌, ◌++◌, length, take};
ghost use Rattle.ped_base.specs.Lists as Lists;
ghost use Rattle.ped_tree.specs.Views.{stmt_tree};
ghost use Rattle.ped_tree.specs.Grammar.Fits as Spec;
ghost use Rattle.ped_fits.specs.Surroundings.{all_names, place};

use ped_base::{Name, is_among};
use ped_limits::{
    MOST_CHARACTERS, MOST_LOOPS_NESTED, MOST_REFERENCES, MOST_STATEMENTS, length,
    references_declared,
};
use ped_tree::{Decl, Stmt};

/// What is around a statement.
#[derive(Clone, Copy)]
pub struct Surroundings<'a> {
    /// The declarations of the program, which name its constants.
    pub decls: &'a [Decl],
    /// The variables of the DO loops around it, the innermost first.
    pub variables: &'a [Name],
    /// The private names of these loops.
    pub private: &'a [&'a [Name]],
    /// How many DO loops and IFs are around it.
    pub depth: usize,
}

/// Whether a numbered statement by itself passes no limit where it follows this many: the number of
/// statements, its references, its printed length.
pub fn is_within(around: &Surroundings, before: u64, statement: &Stmt) -> bool
    ensures { result ≡ Spec.is_within (place around.now before) (stmt_tree statement.now) }
{
    before < MOST_STATEMENTS as u64
        && references_declared(around.decls, around.variables, statement) <= MOST_REFERENCES
        && length(statement) <= MOST_CHARACTERS
}

/// A variable before the variables of the loops around its loop; what follows these is arbitrary.
pub fn with_variable(first: Name, rest: &[Name]) -> [Name; MOST_LOOPS_NESTED]
    requires { length rest.now < 6 }
    ensures { take (length rest.now + 1) result ≡ first ∷ rest.now }
{
    let mut names = [first; MOST_LOOPS_NESTED];
    let all = &mut names[..];
    all[1..rest.len() + 1].copy_from_slice(rest);
    names
}

/// Private names before those of the loops around their loop; what follows these is arbitrary.
pub fn with_private<'a>(first: &'a [Name], rest: &[&'a [Name]]) -> [&'a [Name]; MOST_LOOPS_NESTED]
    requires { length rest.now < 6 }
    ensures { all_names (take (length rest.now + 1) result) ≡ first.now ++ all_names rest.now }
{
    let mut names = [first; MOST_LOOPS_NESTED];
    names[1..rest.len() + 1].copy_from_slice(rest);
    names
}

/// Whether the name is private to one of the loops.
pub fn is_private(name: &Name, private: &[&[Name]]) -> bool
    ensures { result ≡ Lists.is_among name.now (all_names private.now) }
{
    for names in private {
        if is_among(name, names) {
            return true;
        }
    }
    false
}
