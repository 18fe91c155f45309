//! Statements that add to a scalar or subtract from it.

ghost use Rattle.std.specs.Prelude.{◌≡◌, map, option_map};
ghost use Rattle.ped_base.specs.Lists.{is_same_text};
ghost use Rattle.ped_tree.specs.Views.{expr_tree, stmt_tree, pack_exprs};
ghost use Rattle.ped_rules.specs.ped_symbolic.specs.Substitution as Substitution;
ghost use Rattle.ped_reduce.specs.Sums as Spec;
ghost use Rattle.ped_reduce.specs.CodeSums.{sum_view};

use ped_base::Name;
use ped_tree::{Expr, Stmt};

/// What a statement adds to a scalar, or takes away from it.
#[derive(Clone, Copy)]
pub(crate) enum Sum<'a> {
    /// It adds this.
    Plus(&'a Expr),
    /// It takes this away.
    Minus(&'a Expr),
}

/// What a statement adds to the scalar or takes away from it, where it is a sum of the scalar.
pub(crate) fn sum_to<'a>(name: &Name, statement: &'a Stmt) -> Option<Sum<'a>>
    ensures { option_map sum_view result ≡ Spec.sum_to name.now (stmt_tree statement.now) }
{
    match statement {
        Stmt::Assign { left, right } => {
            if is_scalar(name, left) {
                sum_of(name, right)
            } else {
                None
            }
        }
        _ => None,
    }
}

/// What an expression, as the new value of the scalar, adds to it or takes away from it.
fn sum_of<'a>(name: &Name, value: &'a Expr) -> Option<Sum<'a>>
    ensures { option_map sum_view result ≡ Spec.sum_of name.now (expr_tree value.now) }
{
    match value {
        Expr::Add(a, b) => {
            if is_scalar(name, a) && !has_scalar(name, b) {
                Some(Sum::Plus(b))
            } else if is_scalar(name, b) && !has_scalar(name, a) {
                Some(Sum::Plus(a))
            } else {
                None
            }
        }
        Expr::Sub(a, b) => {
            if is_scalar(name, a) && !has_scalar(name, b) {
                Some(Sum::Minus(b))
            } else {
                None
            }
        }
        _ => None,
    }
}

/// Whether the expression is this scalar.
fn is_scalar(name: &Name, e: &Expr) -> bool
    ensures { result ≡ Substitution.is_scalar name.now (expr_tree e.now) }
{
    match e {
        Expr::Var(other) => is_same(name, other),
        _ => false,
    }
}

/// Whether the scalar occurs in the expression.
#[cycle(has_scalar)]
fn has_scalar(name: &Name, e: &Expr) -> bool
    ensures { result ≡ Substitution.has_scalar name.now (expr_tree e.now) }
{
    match e {
        Expr::Int(_) => false,
        Expr::Var(other) => is_same(name, other),
        Expr::Element(_, parts) | Expr::Call(_, parts) => have_scalar(name, parts),
        Expr::Neg(a) => has_scalar(name, a),
        Expr::Add(a, b) | Expr::Sub(a, b) | Expr::Mul(a, b) | Expr::Div(a, b) | Expr::Pow(a, b) =>
            has_scalar(name, a) || has_scalar(name, b),
    }
}

/// Whether the scalar occurs in one of the expressions.
#[cycle(has_scalar)]
fn have_scalar(name: &Name, exprs: &[Expr]) -> bool
    ensures { result ≡ Substitution.have_scalar name.now (pack_exprs (map expr_tree exprs.now)) }
{
    for e in exprs {
        if has_scalar(name, e) {
            return true;
        }
    }
    false
}

fn is_same(a: &Name, b: &Name) -> bool
    ensures { result ≡ is_same_text a.now b.now }
{
    a.as_bytes() == b.as_bytes()
}
