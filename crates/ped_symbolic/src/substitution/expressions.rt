//! An expression in place of a scalar in expressions.

ghost use Rattle.std.specs.Prelude.{◌≡◌, IfOk, map};
ghost use Rattle.ped_tree.specs.Tree;
ghost use Rattle.ped_tree.specs.Views.{expr_tree, pack_exprs};
ghost use Rattle.ped_base.specs.Lists.{is_same_text};
ghost use Rattle.ped_symbolic.specs.Substitution as Spec;
ghost use Rattle.ped_symbolic.specs.Arithmetic;

use crate::arithmetic::{minus, plus};
use ped_base::{Name, NoMemory, both};
use ped_tree::Expr;
use std::alloc::Global;

fn is_same(a: &Name, b: &Name) -> bool
    ensures { result ≡ is_same_text a.now b.now }
{
    a.as_bytes() == b.as_bytes()
}

/// The scalar occurs in the expression.
#[cycle(has_scalar)]
fn has_scalar(e: &Expr, name: &Name) -> bool
    ensures { result ≡ Spec.has_scalar name.now (expr_tree e.now) }
{
    match e {
        Expr::Int(_) => false,
        Expr::Var(other) => is_same(name, other),
        Expr::Element(_, parts) | Expr::Call(_, parts) => have_scalar(parts, name),
        Expr::Neg(a) => has_scalar(a, name),
        Expr::Add(a, b) | Expr::Sub(a, b) | Expr::Mul(a, b) | Expr::Div(a, b) | Expr::Pow(a, b) =>
            has_scalar(a, name) || has_scalar(b, name),
    }
}

/// The scalar occurs in one of the expressions.
#[cycle(has_scalar)]
fn have_scalar(exprs: &[Expr], name: &Name) -> bool
    ensures { result ≡ Spec.have_scalar name.now (pack_exprs (map expr_tree exprs.now)) }
{
    for e in exprs {
        if has_scalar(e, name) {
            return true;
        }
    }
    false
}

/// The expression is this scalar.
fn is_scalar(e: &Expr, name: &Name) -> bool
    ensures { result ≡ Spec.is_scalar name.now (expr_tree e.now) }
{
    match e {
        Expr::Var(other) => is_same(name, other),
        _ => false,
    }
}

/// One of two operands is changed.
fn changes(a: &Expr, b: &Expr, name: &Name, by: &Expr) -> bool
    ensures { result ≡ Spec.changes name.now (expr_tree by.now) (expr_tree a.now) (expr_tree b.now) }
{
    (has_scalar(a, name) || has_scalar(b, name)) && !is_scalar(by, name)
}

/// The expression `e` with `by` in place of the scalar `name`. A sum or difference with an operand that this changes
/// is made anew by [plus] or [minus].
#[cycle(substitute)]
pub fn substitute(alloc: Global, e: &Expr, name: &Name, by: &Expr) -> Result<Expr, NoMemory>
    ensures { IfOk result (λ new. expr_tree new ≡ Spec.substituted name.now (expr_tree by.now) (expr_tree e.now)) }
{
    match e {
        Expr::Int(n) => Ok(Expr::literal(*n)),
        Expr::Var(other) => in_scalar(alloc, other, name, by),
        Expr::Element(array, subscripts) => {
            let subscripts = substitute_in_all(alloc, subscripts, name, by)?;
            Ok(Expr::element(*array, subscripts))
        }
        Expr::Neg(a) => Expr::negation(alloc, substitute(alloc, a, name, by)?),
        Expr::Add(a, b) => {
            if !changes(a, b, name, by) {
                return e.copy(alloc);
            }
            let a = substitute(alloc, a, name, by)?;
            let (a, b) = both(a, substitute(alloc, b, name, by))?;
            sum_of(alloc, a, b)
        }
        Expr::Sub(a, b) => {
            if !changes(a, b, name, by) {
                return e.copy(alloc);
            }
            let a = substitute(alloc, a, name, by)?;
            let (a, b) = both(a, substitute(alloc, b, name, by))?;
            difference_of(alloc, a, b)
        }
        Expr::Mul(a, b) => {
            let a = substitute(alloc, a, name, by)?;
            let (a, b) = both(a, substitute(alloc, b, name, by))?;
            Expr::product(alloc, a, b)
        }
        Expr::Div(a, b) => {
            let a = substitute(alloc, a, name, by)?;
            let (a, b) = both(a, substitute(alloc, b, name, by))?;
            Expr::quotient(alloc, a, b)
        }
        Expr::Pow(a, b) => {
            let a = substitute(alloc, a, name, by)?;
            let (a, b) = both(a, substitute(alloc, b, name, by))?;
            Expr::power(alloc, a, b)
        }
        Expr::Call(intrinsic, arguments) => {
            let arguments = substitute_in_all(alloc, arguments, name, by)?;
            Ok(Expr::call(*intrinsic, arguments))
        }
    }
}

/// The sum of two expressions, which are dropped.
fn sum_of(alloc: Global, a: Expr, b: Expr) -> Result<Expr, NoMemory>
    ensures { IfOk result (λ e. expr_tree e ≡ Arithmetic.plus_of (expr_tree a) (expr_tree b)) }
{
    let sum = plus(alloc, &a, &b);
    drop(a);
    drop(b);
    sum
}

/// The difference of two expressions, which are dropped.
fn difference_of(alloc: Global, a: Expr, b: Expr) -> Result<Expr, NoMemory>
    ensures { IfOk result (λ e. expr_tree e ≡ Arithmetic.minus_of (expr_tree a) (expr_tree b)) }
{
    let difference = minus(alloc, &a, &b);
    drop(a);
    drop(b);
    difference
}

fn in_scalar(alloc: Global, other: &Name, name: &Name, by: &Expr) -> Result<Expr, NoMemory>
    ensures { IfOk result (λ new. expr_tree new ≡ Spec.substituted name.now (expr_tree by.now) (Tree.Var other.now)) }
{
    if is_same(name, other) {
        by.copy(alloc)
    } else {
        Ok(Expr::scalar(*other))
    }
}

/// The expressions, each with `by` in place of the scalar `name`.
#[cycle(substitute)]
pub fn substitute_in_all(
    alloc: Global,
    exprs: &[Expr],
    name: &Name,
    by: &Expr,
) -> Result<Vec<Expr>, NoMemory>
    ensures list { IfOk result (λ new. map expr_tree new.items ≡ map (Spec.substituted name.now (expr_tree by.now)) (map expr_tree exprs.now)) }
    ensures packed { IfOk result (λ new. pack_exprs (map expr_tree new.items) ≡ Spec.all_substituted name.now (expr_tree by.now) (pack_exprs (map expr_tree exprs.now))) }
{
    let mut new = Vec::new(alloc);
    for e in exprs {
        new.push(substitute(alloc, e, name, by)?)?;
    }
    Ok(new)
}
