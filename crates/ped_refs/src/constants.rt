//! The named constants of a program, as a set (ANSI X3.9-1978, section 8.6).

ghost use Rattle.std.specs.Prelude.{◌≡◌, [], map, IfOk, OnOk};
ghost use Rattle.ped_tree.specs.Accesses.{constants_in, constant_names};
ghost use Rattle.ped_tree.specs.Views.{decl_tree, value_tree};
ghost use Rattle.ped_tree.specs.Names.Collecting.{with_names};

use ped_base::{Name, NoMemory};
use ped_tree::names::NameSet;
use ped_tree::{Decl, Expr};
use std::alloc::Global;

/// The names that the declarations make constants.
pub fn constants_of(alloc: Global, decls: &[Decl]) -> Result<NameSet, NoMemory>
    ensures { IfOk result (λ names. names ≡ with_names [] (constant_names (map decl_tree decls.now))) }
{
    let mut names = NameSet::new(alloc);
    for decl in decls {
        add_constants(&mut names, decl)?;
    }
    Ok(names)
}

/// Adds the names that a declaration makes constants.
fn add_constants(names: &mut NameSet, decl: &Decl) -> Result<(), NoMemory>
    ensures { OnOk result (names.new ≡ with_names names.old (constants_in (decl_tree decl.now))) }
{
    match decl {
        Decl::Parameter(values) => add_first_parts(names, values),
        Decl::Program(_)
        | Decl::Implicit
        | Decl::Integer(_)
        | Decl::Dimension(_)
        | Decl::Save(_)
        | Decl::Comment(_) => Ok(()),
    }
}

/// Adds the names of constants, which come with their values.
fn add_first_parts(names: &mut NameSet, values: &[(Name, Expr)]) -> Result<(), NoMemory>
    ensures { OnOk result (names.new ≡ with_names names.old (map (λ v. v.0) (map value_tree values.now))) }
{
    for value in values {
        names.insert(&value.0)?;
    }
    Ok(())
}
