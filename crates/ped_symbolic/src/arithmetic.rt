//! Sums, differences and products, with literals computed.

ghost use Rattle.std.specs.Prelude.{◌≡◌, ◌≤◌, IfOk};
ghost use Rattle.ped_tree.specs.Views.{expr_tree};
ghost use Rattle.ped_symbolic.specs.Arithmetic as Spec;

use crate::literals::{
    difference_of_literals, is_zero, literal, negative_literal, product_of_literals,
    sum_of_literals,
};
use ped_base::{NoMemory, both};
use ped_tree::Expr;
use std::alloc::Global;

/// The sum of two expressions: of two literals the literal, where it is at most 2147483647 in size, the other operand
/// where one is the literal 0, and `a-k` for `a` and the literal `-k`.
pub fn plus(alloc: Global, a: &Expr, b: &Expr) -> Result<Expr, NoMemory>
    ensures { IfOk result (λ e. expr_tree e ≡ Spec.plus_of (expr_tree a.now) (expr_tree b.now)) }
{
    if let Some(n) = sum_of_literals(a, b) {
        return literal(alloc, n);
    }
    if is_zero(b) {
        return a.copy(alloc);
    }
    if is_zero(a) {
        return b.copy(alloc);
    }
    added(alloc, a, b)
}

fn added(alloc: Global, a: &Expr, b: &Expr) -> Result<Expr, NoMemory>
    ensures { IfOk result (λ e. expr_tree e ≡ Spec.added (expr_tree a.now) (expr_tree b.now)) }
{
    let left = a.copy(alloc)?;
    match negative_literal(b) {
        Some(k) => Expr::difference(alloc, left, Expr::literal(k)),
        None => {
            let (left, right) = both(left, b.copy(alloc))?;
            Expr::sum(alloc, left, right)
        }
    }
}

/// The difference of two expressions: of two literals the literal, where it is at most 2147483647 in size, `a` where
/// `b` is the literal 0, and `a+k` for `a` and the literal `-k`.
pub fn minus(alloc: Global, a: &Expr, b: &Expr) -> Result<Expr, NoMemory>
    ensures { IfOk result (λ e. expr_tree e ≡ Spec.minus_of (expr_tree a.now) (expr_tree b.now)) }
{
    if let Some(n) = difference_of_literals(a, b) {
        return literal(alloc, n);
    }
    if is_zero(b) {
        return a.copy(alloc);
    }
    subtracted(alloc, a, b)
}

fn subtracted(alloc: Global, a: &Expr, b: &Expr) -> Result<Expr, NoMemory>
    ensures { IfOk result (λ e. expr_tree e ≡ Spec.subtracted (expr_tree a.now) (expr_tree b.now)) }
{
    let left = a.copy(alloc)?;
    match negative_literal(b) {
        Some(k) => Expr::sum(alloc, left, Expr::literal(k)),
        None => {
            let (left, right) = both(left, b.copy(alloc))?;
            Expr::difference(alloc, left, right)
        }
    }
}

/// The product of a number, from 1 to 2147483647, and an expression: the expression where the number is 1, and of a
/// literal the literal, where it is at most 2147483647 in size.
pub fn times(alloc: Global, k: u32, a: &Expr) -> Result<Expr, NoMemory>
    requires least { 1 ≤ k }
    requires greatest { k ≤ 2147483647 }
    ensures { IfOk result (λ e. expr_tree e ≡ Spec.times_of k (expr_tree a.now)) }
{
    if k == 1 {
        return a.copy(alloc);
    }
    if let Some(n) = product_of_literals(k, a) {
        return literal(alloc, n);
    }
    let factor = a.copy(alloc)?;
    Expr::product(alloc, Expr::literal(k), factor)
}
