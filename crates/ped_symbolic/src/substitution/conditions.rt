//! An expression in place of a scalar in conditions.

ghost use Rattle.std.specs.Prelude.{◌≡◌, IfOk};
ghost use Rattle.ped_tree.specs.Views.{expr_tree, cond_tree};
ghost use Rattle.ped_symbolic.specs.Substitution as Spec;

use super::expressions::substitute;
use ped_base::{Name, NoMemory, both};
use ped_tree::{Cond, Expr};
use std::alloc::Global;

/// The condition with `by` in place of the scalar `name`.
pub fn substitute_in_condition(
    alloc: Global,
    condition: &Cond,
    name: &Name,
    by: &Expr,
) -> Result<Cond, NoMemory>
    ensures { IfOk result (λ new. cond_tree new ≡ Spec.condition_substituted name.now (expr_tree by.now) (cond_tree condition.now)) }
{
    match condition {
        Cond::Rel(relation, a, b) => {
            let a = substitute(alloc, a, name, by)?;
            let (a, b) = both(a, substitute(alloc, b, name, by))?;
            Ok(Cond::relation(*relation, a, b))
        }
        Cond::Not(operand) => {
            let operand = substitute_in_condition(alloc, operand, name, by)?;
            Cond::negation(alloc, operand)
        }
        Cond::And(a, b) => {
            let a = substitute_in_condition(alloc, a, name, by)?;
            let (a, b) = both(a, substitute_in_condition(alloc, b, name, by))?;
            Cond::conjunction(alloc, a, b)
        }
        Cond::Or(a, b) => {
            let a = substitute_in_condition(alloc, a, name, by)?;
            let (a, b) = both(a, substitute_in_condition(alloc, b, name, by))?;
            Cond::disjunction(alloc, a, b)
        }
    }
}
