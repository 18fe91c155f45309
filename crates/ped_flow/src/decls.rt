//! What a program's declarations say about a name.

ghost use Rattle.std.specs.Prelude.{◌≡◌, map};
ghost use Rattle.std.specs.List.{flat_map};
ghost use Rattle.ped_base.specs.Lists as Lists;
ghost use Rattle.ped_tree.specs.Accesses.{constants_in, constant_names};
ghost use Rattle.ped_tree.specs.Views.{decl_tree, value_tree};
ghost use Rattle.ped_tree.specs.NamesIn.{saved_in};

use crate::scalars::is_same;
use ped_base::{Name, is_among};
use ped_tree::{Decl, Expr};

/// Whether the declarations make the name a constant.
pub(crate) fn is_constant(name: &Name, decls: &[Decl]) -> bool
    ensures { result ≡ Lists.is_among name.now (constant_names (map decl_tree decls.now)) }
{
    for decl in decls {
        if is_constant_of(name, decl) {
            return true;
        }
    }
    false
}

/// Whether a declaration makes the name a constant.
fn is_constant_of(name: &Name, decl: &Decl) -> bool
    ensures { result ≡ Lists.is_among name.now (constants_in (decl_tree decl.now)) }
{
    match decl {
        Decl::Parameter(values) => has_value(name, values),
        Decl::Program(_)
        | Decl::Implicit
        | Decl::Integer(_)
        | Decl::Dimension(_)
        | Decl::Save(_)
        | Decl::Comment(_) => false,
    }
}

/// Whether the name is among constants with their values.
fn has_value(name: &Name, values: &[(Name, Expr)]) -> bool
    ensures { result ≡ Lists.is_among name.now (map (λ v. v.0) (map value_tree values.now)) }
{
    for value in values {
        if is_same(name, &value.0) {
            return true;
        }
    }
    false
}

/// Whether the declarations save the name.
pub(crate) fn is_saved(name: &Name, decls: &[Decl]) -> bool
    ensures { result ≡ Lists.is_among name.now (flat_map saved_in (map decl_tree decls.now)) }
{
    for decl in decls {
        if is_saved_by(name, decl) {
            return true;
        }
    }
    false
}

/// Whether a declaration saves the name.
fn is_saved_by(name: &Name, decl: &Decl) -> bool
    ensures { result ≡ Lists.is_among name.now (saved_in (decl_tree decl.now)) }
{
    match decl {
        Decl::Save(names) => is_among(name, names.as_slice()),
        Decl::Program(_)
        | Decl::Implicit
        | Decl::Integer(_)
        | Decl::Dimension(_)
        | Decl::Parameter(_)
        | Decl::Comment(_) => false,
    }
}
