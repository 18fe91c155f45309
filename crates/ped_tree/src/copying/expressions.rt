//! Copies of expressions and conditions.

ghost use Rattle.std.specs.Prelude.{◌≡◌, IfOk, map};
ghost use Rattle.ped_tree.specs.Tree;
ghost use Rattle.ped_tree.specs.Views.{expr_tree, cond_tree};

use crate::conditions::{Cond, Relation};
use crate::expressions::Expr;
use ped_base::{NoMemory, both};
use std::alloc::Global;

impl Expr {
    /// A copy, with the same plain tree.
    #[cycle(copy_expr)]
    pub fn copy(&self, alloc: Global) -> Result<Self, NoMemory>
        ensures { IfOk result (λ copy. expr_tree copy ≡ expr_tree self.now) }
    {
        match self {
            Expr::Int(value) => Ok(Expr::Int(*value)),
            Expr::Var(name) => Ok(Expr::Var(*name)),
            Expr::Element(name, subscripts) => {
                Ok(Expr::Element(*name, copy_exprs(subscripts, alloc)?))
            }
            Expr::Neg(operand) => Expr::negation(alloc, operand.copy(alloc)?),
            Expr::Add(left, right) => {
                let (left, right) = both(left.copy(alloc)?, right.copy(alloc))?;
                Expr::sum(alloc, left, right)
            }
            Expr::Sub(left, right) => {
                let (left, right) = both(left.copy(alloc)?, right.copy(alloc))?;
                Expr::difference(alloc, left, right)
            }
            Expr::Mul(left, right) => {
                let (left, right) = both(left.copy(alloc)?, right.copy(alloc))?;
                Expr::product(alloc, left, right)
            }
            Expr::Div(left, right) => {
                let (left, right) = both(left.copy(alloc)?, right.copy(alloc))?;
                Expr::quotient(alloc, left, right)
            }
            Expr::Pow(base, exponent) => {
                let (base, exponent) = both(base.copy(alloc)?, exponent.copy(alloc))?;
                Expr::power(alloc, base, exponent)
            }
            Expr::Call(intrinsic, arguments) => {
                Ok(Expr::Call(*intrinsic, copy_exprs(arguments, alloc)?))
            }
        }
    }
}

#[cycle(copy_expr)]
pub(crate) fn copy_exprs(exprs: &[Expr], alloc: Global) -> Result<Vec<Expr>, NoMemory>
    ensures { IfOk result (λ copies. map expr_tree copies.items ≡ map expr_tree exprs.now) }
{
    let mut copies = Vec::new(alloc);
    for expr in exprs {
        copies.push(expr.copy(alloc)?)?;
    }
    Ok(copies)
}

impl Cond {
    /// A copy, with the same plain tree.
    pub fn copy(&self, alloc: Global) -> Result<Self, NoMemory>
        ensures { IfOk result (λ copy. cond_tree copy ≡ cond_tree self.now) }
    {
        match self {
            Cond::Rel(relation, left, right) => copy_relation(*relation, left, right, alloc),
            Cond::Not(operand) => Cond::negation(alloc, operand.copy(alloc)?),
            Cond::And(left, right) => {
                let (left, right) = both(left.copy(alloc)?, right.copy(alloc))?;
                Cond::conjunction(alloc, left, right)
            }
            Cond::Or(left, right) => {
                let (left, right) = both(left.copy(alloc)?, right.copy(alloc))?;
                Cond::disjunction(alloc, left, right)
            }
        }
    }
}

/// A copy of the relation of two expressions.
fn copy_relation(
    relation: Relation,
    left: &Expr,
    right: &Expr,
    alloc: Global,
) -> Result<Cond, NoMemory>
    ensures { IfOk result (λ copy. cond_tree copy ≡ Tree.Rel relation (expr_tree left.now) (expr_tree right.now)) }
{
    let (left, right) = both(left.copy(alloc)?, right.copy(alloc))?;
    Ok(Cond::relation(relation, left, right))
}
