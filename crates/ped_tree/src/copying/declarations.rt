//! Copies of declarations and of whole programs.

ghost use Rattle.std.specs.Prelude.{◌≡◌, IfOk, map};
ghost use Rattle.ped_tree.specs.Views.{bound_tree, declarator_tree, value_tree, decl_tree, program_tree};

use super::statements::copy_stmts;
use super::{copy_bytes, copy_names};
use crate::declarations::{Bound, Decl, Declarator, Program};
use crate::expressions::Expr;
use ped_base::{Name, NoMemory};
use std::alloc::Global;

impl Bound {
    /// A copy, with the same plain tree.
    pub fn copy(&self, alloc: Global) -> Result<Self, NoMemory>
        ensures { IfOk result (λ copy. bound_tree copy ≡ bound_tree self.now) }
    {
        let lower = self.lower.copy(alloc)?;
        let upper = self.upper.copy(alloc)?;
        Ok(Bound { lower, upper })
    }
}

fn copy_bounds(bounds: &[Bound], alloc: Global) -> Result<Vec<Bound>, NoMemory>
    ensures { IfOk result (λ copies. map bound_tree copies.items ≡ map bound_tree bounds.now) }
{
    let mut copies = Vec::new(alloc);
    for bound in bounds {
        copies.push(bound.copy(alloc)?)?;
    }
    Ok(copies)
}

impl Declarator {
    /// A copy, with the same plain tree.
    pub fn copy(&self, alloc: Global) -> Result<Self, NoMemory>
        ensures { IfOk result (λ copy. declarator_tree copy ≡ declarator_tree self.now) }
    {
        let bounds = copy_bounds(&self.bounds, alloc)?;
        Ok(Declarator {
            name: self.name,
            bounds,
        })
    }
}

fn copy_declarators(declarators: &[Declarator], alloc: Global) -> Result<Vec<Declarator>, NoMemory>
    ensures { IfOk result (λ copies. map declarator_tree copies.items ≡ map declarator_tree declarators.now) }
{
    let mut copies = Vec::new(alloc);
    for declarator in declarators {
        copies.push(declarator.copy(alloc)?)?;
    }
    Ok(copies)
}

fn copy_values(values: &[(Name, Expr)], alloc: Global) -> Result<Vec<(Name, Expr)>, NoMemory>
    ensures { IfOk result (λ copies. map value_tree copies.items ≡ map value_tree values.now) }
{
    let mut copies = Vec::new(alloc);
    for (name, value) in values {
        copies.push((*name, value.copy(alloc)?))?;
    }
    Ok(copies)
}

impl Decl {
    /// A copy, with the same plain tree.
    pub fn copy(&self, alloc: Global) -> Result<Self, NoMemory>
        ensures { IfOk result (λ copy. decl_tree copy ≡ decl_tree self.now) }
    {
        match self {
            Decl::Program(name) => Ok(Decl::Program(*name)),
            Decl::Implicit => Ok(Decl::Implicit),
            Decl::Integer(declarators) => Ok(Decl::Integer(copy_declarators(declarators, alloc)?)),
            Decl::Dimension(declarators) => {
                Ok(Decl::Dimension(copy_declarators(declarators, alloc)?))
            }
            Decl::Parameter(values) => Ok(Decl::Parameter(copy_values(values, alloc)?)),
            Decl::Save(names) => Ok(Decl::Save(copy_names(names, alloc)?)),
            Decl::Comment(text) => Ok(Decl::Comment(copy_bytes(text, alloc)?)),
        }
    }
}

/// Copies of declarations, with the same plain trees.
pub fn copy_decls(decls: &[Decl], alloc: Global) -> Result<Vec<Decl>, NoMemory>
    ensures { IfOk result (λ copies. map decl_tree copies.items ≡ map decl_tree decls.now) }
{
    let mut copies = Vec::new(alloc);
    for decl in decls {
        copies.push(decl.copy(alloc)?)?;
    }
    Ok(copies)
}

impl Program {
    /// A copy, with the same plain tree and the same lines.
    pub fn copy(&self, alloc: Global) -> Result<Self, NoMemory>
        ensures tree { IfOk result (λ copy. program_tree copy ≡ program_tree self.now) }
        ensures lines { IfOk result (λ copy. copy.lines.items ≡ self.now.lines.items) }
    {
        let decls = copy_decls(&self.decls, alloc)?;
        let body = copy_stmts(&self.body, alloc)?;
        let lines = self.lines.to_vec(alloc)?;
        Ok(Program { decls, body, lines })
    }
}
