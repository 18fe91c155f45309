//! Literals with at most one sign, by their values.

ghost use Rattle.std.specs.Prelude.{◌≡◌, ◌≤◌, ◌<◌, ◌^◌, ◌+ℤ◌, ◌-ℤ◌, ◌*ℤ◌, ℕ, pos, IfOk, IfSome, MatchOption, Some, unsigned_abs};
ghost use Rattle.ped_tree.specs.Tree.{ExprTree, Int, Neg, Add, Sub};
ghost use Rattle.ped_tree.specs.Views.{expr_tree};
ghost use Rattle.ped_symbolic.specs.Arithmetic as Spec;

use ped_base::NoMemory;
use ped_tree::Expr;
use std::alloc::Global;

/// The value of a literal with at most one sign.
fn literal_value(e: &Expr) -> Option<i64>
    ensures value { result ≡ Spec.literal_value (expr_tree e.now) }
    ensures size { IfSome result (λ n. unsigned_abs n < 2 ^ 32) }
{
    match e {
        Expr::Int(n) => Some(i64::from(*n)),
        Expr::Neg(operand) => negated(operand),
        _ => None,
    }
}

/// The value of the negation of a literal without a sign.
fn negated(operand: &Expr) -> Option<i64>
    ensures value { result ≡ Spec.literal_value (Neg (expr_tree operand.now)) }
    ensures size { IfSome result (λ n. unsigned_abs n < 2 ^ 32) }
{
    match operand {
        Expr::Int(n) => Some(-i64::from(*n)),
        _ => None,
    }
}

/// A literal may have the number.
fn small(n: i64) -> Option<i64>
    ensures value { result ≡ Spec.small (Some n) }
    ensures size { IfSome result (λ n. unsigned_abs n ≤ 2147483647) }
{
    if n.unsigned_abs() <= 2147483647 {
        Some(n)
    } else {
        None
    }
}

/// The sum of two literals, where both are literals and one may have the sum.
pub fn sum_of_literals(a: &Expr, b: &Expr) -> Option<i64>
    ensures value { result ≡ Spec.computed ◌+ℤ◌ (expr_tree a.now) (expr_tree b.now) }
    ensures size { IfSome result (λ n. unsigned_abs n ≤ 2147483647) }
{
    small(literal_value(a)? + literal_value(b)?)
}

/// The difference of two literals, where both are literals and one may have the difference.
pub fn difference_of_literals(a: &Expr, b: &Expr) -> Option<i64>
    ensures value { result ≡ Spec.computed ◌-ℤ◌ (expr_tree a.now) (expr_tree b.now) }
    ensures size { IfSome result (λ n. unsigned_abs n ≤ 2147483647) }
{
    small(literal_value(a)? - literal_value(b)?)
}

/// The product of a number and a literal, where it is a literal and one may have the product.
pub fn product_of_literals(k: u32, a: &Expr) -> Option<i64>
    requires { k ≤ 2147483647 }
    ensures value { result ≡ Spec.computed ◌*ℤ◌ (Int k) (expr_tree a.now) }
    ensures size { IfSome result (λ n. unsigned_abs n ≤ 2147483647) }
{
    small(i64::from(k) * literal_value(a)?)
}

/// The literal of a number.
pub fn literal(alloc: Global, n: i64) -> Result<Expr, NoMemory>
    requires { unsigned_abs n ≤ 2147483647 }
    ensures { IfOk result (λ e. expr_tree e ≡ Spec.literal n) }
{
    let size = Expr::literal(n.unsigned_abs() as u32);
    if n < 0 {
        Expr::negation(alloc, size)
    } else {
        Ok(size)
    }
}

/// The expression is the literal 0, with a sign or without.
pub fn is_zero(e: &Expr) -> bool
    ensures { result ≡ Spec.is_zero (expr_tree e.now) }
{
    match e {
        Expr::Int(n) => *n == 0,
        Expr::Neg(operand) => is_negated_zero(operand),
        _ => false,
    }
}

fn is_negated_zero(operand: &Expr) -> bool
    ensures { result ≡ Spec.is_zero (Neg (expr_tree operand.now)) }
{
    match operand {
        Expr::Int(n) => *n == 0,
        _ => false,
    }
}

/// The number k of a literal -k.
pub fn negative_literal(e: &Expr) -> Option<u32>
    ensures { MatchOption result ((a : ExprTree) → (Spec.added a (expr_tree e.now) ≡ Add a (expr_tree e.now)) × (Spec.subtracted a (expr_tree e.now) ≡ Sub a (expr_tree e.now))) (λ k. expr_tree e.now ≡ Neg (Int k)) }
{
    match e {
        Expr::Neg(operand) => unsigned_literal(operand),
        _ => None,
    }
}

fn unsigned_literal(operand: &Expr) -> Option<u32>
    ensures { MatchOption result ((a : ExprTree) → (Spec.added a (Neg (expr_tree operand.now)) ≡ Add a (Neg (expr_tree operand.now))) × (Spec.subtracted a (Neg (expr_tree operand.now)) ≡ Sub a (Neg (expr_tree operand.now)))) (λ k. expr_tree operand.now ≡ Int k) }
{
    match operand {
        Expr::Int(n) => Some(*n),
        _ => None,
    }
}
