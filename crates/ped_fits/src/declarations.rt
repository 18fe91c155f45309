//! Declarations that can be written, in the standard's order (ANSI X3.9-1978, section 3.5), with
//! the comments among them.

ghost use Rattle.std.specs.Prelude.{◌≡◌, ◌∷◌, List, ◌&&◌, not, nat_le, false, map, length, MatchOption};
ghost use Rattle.std.specs.List.{list_all};
ghost use Rattle.ped_tree.specs.Tree.{DeclTree};
ghost use Rattle.ped_tree.specs.Printing.{decl_text};
ghost use Rattle.ped_tree.specs.Views.{bound_tree, declarator_tree, value_tree, decl_tree};
ghost use Rattle.ped_tree.specs.Grammar.Contexts.{decl_rank};
ghost use Rattle.ped_tree.specs.Grammar.ProgramRefusals as Refusals;
ghost use Rattle.ped_tree.specs.Grammar.Fits as Spec;

use crate::comments::comment_fits;
use crate::expressions::expr_fits;
use crate::names::{are_names, name_fits};
use ped_base::Name;
use ped_limits::{MOST_CHARACTERS, MOST_DIMENSIONS, decl_length};
use ped_tree::{Bound, Decl, Declarator, Expr};

/// Whether declarations can be written one after another.
pub fn decls_fit(decls: &[Decl]) -> bool
    ensures { result ≡ Spec.decls_fit 0 (map decl_tree decls.now) }
{
    let mut phase: u8 = 0;
    for decl in decls {
        match next_phase(phase, decl) {
            Some(next) => phase = next,
            None => return false,
        }
    }
    true
}

/// How far the order of statements has come after a declaration; none where it doesn't fit there.
fn next_phase(phase: u8, decl: &Decl) -> Option<u8>
    ensures { MatchOption result ((more : List DeclTree) → Spec.decls_fit phase (decl_tree decl.now ∷ more) ≡ false)
        (λ next. (more : List DeclTree) → Spec.decls_fit phase (decl_tree decl.now ∷ more) ≡ Spec.decls_fit next more) }
{
    match decl {
        Decl::Comment(text) => {
            if comment_fits(text.as_slice()) {
                return Some(phase);
            }
            None
        }
        Decl::Program(_)
        | Decl::Implicit
        | Decl::Integer(_)
        | Decl::Dimension(_)
        | Decl::Parameter(_)
        | Decl::Save(_) => {
            if is_in_place(phase, decl) {
                return Some(rank(decl));
            }
            None
        }
    }
}

/// Whether a declaration that is no comment can be written where the order of statements has come so far.
fn is_in_place(phase: u8, decl: &Decl) -> bool
    ensures { result ≡ (Spec.decl_fits (decl_tree decl.now) && nat_le (length (decl_text (decl_tree decl.now))) 1300
        && not (Refusals.is_out_of_order phase (decl_rank (decl_tree decl.now)))) }
{
    decl_fits(decl) && is_short(decl) && !is_out_of_order(phase, rank(decl))
}

fn is_short(decl: &Decl) -> bool
    ensures { result ≡ nat_le (length (decl_text (decl_tree decl.now))) 1300 }
{
    decl_length(decl) <= MOST_CHARACTERS
}

fn is_out_of_order(phase: u8, rank: u8) -> bool
    ensures { result ≡ Refusals.is_out_of_order phase rank }
{
    if rank < 3 {
        rank <= phase
    } else {
        rank < phase
    }
}

fn rank(decl: &Decl) -> u8
    ensures { result ≡ decl_rank (decl_tree decl.now) }
{
    match decl {
        Decl::Program(_) => 1,
        Decl::Implicit => 2,
        Decl::Integer(_)
        | Decl::Dimension(_)
        | Decl::Parameter(_)
        | Decl::Save(_)
        | Decl::Comment(_) => 3,
    }
}

/// Whether what the declaration says can be written.
fn decl_fits(decl: &Decl) -> bool
    ensures { result ≡ Spec.decl_fits (decl_tree decl.now) }
{
    match decl {
        Decl::Program(name) => name_fits(name),
        Decl::Implicit => true,
        Decl::Integer(declarators) => !declarators.is_empty() && declarators_fit(declarators),
        Decl::Dimension(declarators) => !declarators.is_empty() && arrays_fit(declarators),
        Decl::Parameter(values) => !values.is_empty() && constants_fit(values),
        Decl::Save(names) => are_names(names.as_slice()),
        Decl::Comment(text) => comment_fits(text.as_slice()),
    }
}

fn declarators_fit(declarators: &[Declarator]) -> bool
    ensures { result ≡ list_all Spec.declarator_fits (map declarator_tree declarators.now) }
{
    for declarator in declarators {
        if !declarator_fits(declarator) {
            return false;
        }
    }
    true
}

fn arrays_fit(declarators: &[Declarator]) -> bool
    ensures { result ≡ list_all Spec.array_fits (map declarator_tree declarators.now) }
{
    for declarator in declarators {
        if !array_fits(declarator) {
            return false;
        }
    }
    true
}

fn array_fits(declarator: &Declarator) -> bool
    ensures { result ≡ Spec.array_fits (declarator_tree declarator.now) }
{
    declarator_fits(declarator) && !declarator.bounds.is_empty()
}

fn declarator_fits(declarator: &Declarator) -> bool
    ensures { result ≡ Spec.declarator_fits (declarator_tree declarator.now) }
{
    name_fits(&declarator.name)
        && declarator.bounds.len() <= MOST_DIMENSIONS
        && bounds_fit(&declarator.bounds)
}

fn bounds_fit(bounds: &[Bound]) -> bool
    ensures { result ≡ list_all Spec.bound_fits (map bound_tree bounds.now) }
{
    for bound in bounds {
        if !(expr_fits(&bound.lower) && expr_fits(&bound.upper)) {
            return false;
        }
    }
    true
}

fn constants_fit(values: &[(Name, Expr)]) -> bool
    ensures { result ≡ list_all Spec.constant_fits (map value_tree values.now) }
{
    for value in values {
        if !(name_fits(&value.0) && expr_fits(&value.1)) {
            return false;
        }
    }
    true
}
