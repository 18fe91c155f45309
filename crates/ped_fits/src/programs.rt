//! Whole programs.

ghost use Rattle.std.specs.Prelude.{◌≡◌};
ghost use Rattle.ped_tree.specs.Views.{program_tree, stmt_trees};
ghost use Rattle.ped_tree.specs.Grammar.Fits as Spec;
ghost use Rattle.ped_fits.specs.Surroundings.{at_first};

use crate::declarations::decls_fit;
use crate::statements::statements_fit;
use crate::surroundings::Surroundings;
use ped_tree::{Decl, Program, Stmt};

/// Whether a tree is a program of the profile, which is whether some text reads as it: its names, literals,
/// constants and comments can be written, its statements are where they may be, and no limit is passed. It
/// takes no memory, and looks a named constant up among the declarations.
pub fn fits(program: &Program) -> bool
    ensures { result ≡ Spec.fits (program_tree program.now) }
{
    decls_fit(&program.decls)
        && body_fits(&program.decls, &program.body)
        && begins_with_statement(&program.body)
}

/// Whether the executable statements fit after these declarations.
fn body_fits(decls: &[Decl], body: &[Stmt]) -> bool
    ensures { result ≡ Spec.stmts_fit (at_first decls.now) (stmt_trees body.now) }
{
    let around = Surroundings {
        decls,
        variables: &[],
        private: &[],
        depth: 0,
    };
    statements_fit(&around, 0, body).is_some()
}

/// Whether no comment comes before the first executable statement.
fn begins_with_statement(body: &[Stmt]) -> bool
    ensures { result ≡ Spec.begins_with_statement (stmt_trees body.now) }
{
    match body {
        [Stmt::Comment(_), ..] => false,
        _ => true,
    }
}
