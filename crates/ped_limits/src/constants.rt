//! Named constants (ANSI X3.9-1978, section 8.6), looked up in a set of names or among declarations.

ghost use Rattle.std.specs.Prelude.{◌≡◌, map};
ghost use Rattle.ped_base.specs.Lists.{is_among, is_same_text};
ghost use Rattle.ped_tree.specs.Accesses.{constants_in, constant_names};
ghost use Rattle.ped_tree.specs.Views.{decl_tree, value_tree};
ghost use Rattle.ped_limits.specs.Constants.{names_of};

use ped_base::Name;
use ped_tree::names::NameSet;
use ped_tree::{Decl, Expr};

/// Where named constants are looked up.
#[derive(Clone, Copy)]
pub enum Constants<'a> {
    /// These names are the constants.
    Named(&'a NameSet),
    /// These declarations make names constants.
    Declared(&'a [Decl]),
}

/// Whether the name is a constant.
pub fn is_constant(constants: &Constants, name: &Name) -> bool
    ensures { result ≡ is_among name.now (names_of constants.now) }
{
    match constants {
        Constants::Named(names) => names.contains(name),
        Constants::Declared(decls) => is_declared(decls, name),
    }
}

/// Whether one of the declarations makes the name a constant.
fn is_declared(decls: &[Decl], name: &Name) -> bool
    ensures { result ≡ is_among name.now (constant_names (map decl_tree decls.now)) }
{
    for decl in decls {
        if is_declared_in(decl, name) {
            return true;
        }
    }
    false
}

fn is_declared_in(decl: &Decl, name: &Name) -> bool
    ensures { result ≡ is_among name.now (constants_in (decl_tree decl.now)) }
{
    match decl {
        Decl::Parameter(values) => is_named_in(values, name),
        Decl::Program(_)
        | Decl::Implicit
        | Decl::Integer(_)
        | Decl::Dimension(_)
        | Decl::Save(_)
        | Decl::Comment(_) => false,
    }
}

fn is_named_in(values: &[(Name, Expr)], name: &Name) -> bool
    ensures { result ≡ is_among name.now (map (λ v. v.0) (map value_tree values.now)) }
{
    for value in values {
        if is_same(name, &value.0) {
            return true;
        }
    }
    false
}

fn is_same(one: &Name, other: &Name) -> bool
    ensures { result ≡ is_same_text one.now other.now }
{
    *one == *other
}
