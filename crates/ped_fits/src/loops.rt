//! DO statements by themselves: their variable, bounds and PRIVATE statement, and the names that directives
//! before them reject (ANSI X3.9-1978, section 11.10).

ghost use Rattle.std.specs.Prelude.{◌≡◌, ◌<◌, ◌&&◌, not, nat_le, length};
ghost use Rattle.ped_tree.specs.Tree as Tree;
ghost use Rattle.ped_tree.specs.Printing.{private_text};
ghost use Rattle.ped_tree.specs.Views.{stmt_tree, stmt_trees};
ghost use Rattle.ped_tree.specs.Grammar.StatementForms.{are_names};
ghost use Rattle.ped_tree.specs.Grammar.ProgramRefusals as Refusals;
ghost use Rattle.ped_tree.specs.Grammar.Fits as Spec;
ghost use Rattle.ped_fits.specs.Surroundings.{place};
ghost use Rattle.ped_tree.specs.Views.{head_of};

use crate::expressions::expr_fits;
use crate::names::{all_names_fit, are_names, meets, name_fits};
use crate::surroundings::{Surroundings, is_private, is_within, with_variable};
use ped_base::{Name, is_among};
use ped_limits::{MOST_BLOCKS_NESTED, MOST_CHARACTERS, MOST_LOOPS_NESTED, private_length};
use ped_tree::{Do, Stmt};

/// Whether a DO, which is this statement, can be written where it is, whatever its body is.
pub fn loop_fits(around: &Surroundings, before: u64, statement: &Stmt, d: &Do) -> bool
    requires { stmt_tree statement.now ≡ Tree.Do (head_of d.now) (stmt_trees d.now.body.items) }
    ensures { result ≡ Spec.loop_fits (place around.now before) (head_of d.now) (stmt_trees d.now.body.items) }
{
    is_within(around, before, statement)
        && name_fits(&d.variable)
        && expr_fits(&d.first)
        && expr_fits(&d.last)
        && expr_fits(&d.step)
        && !is_among(&d.variable, around.variables)
        && !is_private(&d.variable, around.private)
        && around.variables.len() < MOST_LOOPS_NESTED
        && around.depth < MOST_BLOCKS_NESTED
        && private_fits(around, before, d)
        && all_names_fit(d.rejected.as_slice())
}

/// Whether the PRIVATE statement of a DO can be written, where it has one.
fn private_fits(around: &Surroundings, before: u64, d: &Do) -> bool
    requires { length around.now.variables.now < 6 }
    ensures { result ≡ Spec.private_fits (place around.now before) (head_of d.now) }
{
    if d.private.as_slice().is_empty() {
        return true;
    }
    let variables = with_variable(d.variable, around.variables);
    list_fits(
        d.private.as_slice(),
        &variables[..around.variables.len() + 1],
    )
}

/// Whether the list of PRIVATE can be written: none of its names is one of these variables.
fn list_fits(names: &[Name], variables: &[Name]) -> bool
    ensures { result ≡ (are_names names.now && nat_le (length (private_text names.now)) 1300
        && not (Refusals.meets names.now variables.now)) }
{
    are_names(names) && is_short(names) && !meets(names, variables)
}

fn is_short(names: &[Name]) -> bool
    ensures { result ≡ nat_le (length (private_text names.now)) 1300 }
{
    private_length(names) <= MOST_CHARACTERS
}
