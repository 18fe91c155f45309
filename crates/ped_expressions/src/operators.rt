//! Operators of arithmetic expressions and conditions (ANSI X3.9-1978, sections 6.1.1, 6.3.2) at the front of a text.

ghost use Rattle.std.specs.Prelude.{◌≡◌, ◌<◌, ◌≤◌, IfSome, IfOk, length};
ghost use Rattle.ped_tree.specs.Views.{expr_tree};
ghost use Rattle.ped_tree.specs.Grammar.ExpressionForms as Forms;
ghost use Rattle.ped_expressions.specs.Scanning as Spec;
ghost use Rattle.ped_expressions.specs.Views.{sign_of, adding_of, scaling_of, adding_and_rest, scaling_and_rest, relation_and_rest};
ghost use Rattle.ped_expressions.specs.ConditionReading.{relation_at};

use crate::scanning::after;
use ped_base::NoMemory;
use ped_tree::{Expr, Relation};
use std::alloc::Global;

/// What is before the first term.
#[derive(Clone, Copy, PartialEq, Eq)]
pub enum Sign {
    /// Nothing.
    Unsigned,
    /// `+`
    Positive,
    /// `-`
    Negative,
}

/// An operator between terms.
#[derive(Clone, Copy, PartialEq, Eq)]
pub enum Adding {
    /// `+`
    Add,
    /// `-`
    Subtract,
}

/// An operator between factors.
#[derive(Clone, Copy, PartialEq, Eq)]
pub enum Scaling {
    /// `*`
    Multiply,
    /// `/`
    Divide,
}

/// The sign at the front, and what follows it.
pub fn take_sign(text: &[u8]) -> (Sign, &[u8])
    ensures is { (sign_of result.0, result.1.now) ≡ Spec.sign_at text.now }
    ensures shorter { length result.1.now ≤ length text.now }
{
    if let Some(rest) = after(text, b"+") {
        return (Sign::Positive, rest);
    }
    if let Some(rest) = after(text, b"-") {
        return (Sign::Negative, rest);
    }
    (Sign::Unsigned, text)
}

/// `+` or `-` at the front, and what follows it.
pub fn take_adding(text: &[u8]) -> Option<(Adding, &[u8])>
    ensures is { adding_and_rest result ≡ Spec.adding_at text.now }
    ensures shorter { IfSome result (λ x. length x.1.now < length text.now) }
{
    if let Some(rest) = after(text, b"+") {
        return Some((Adding::Add, rest));
    }
    if let Some(rest) = after(text, b"-") {
        return Some((Adding::Subtract, rest));
    }
    None
}

/// `*` or `/` at the front, and what follows it.
pub fn take_scaling(text: &[u8]) -> Option<(Scaling, &[u8])>
    ensures is { scaling_and_rest result ≡ Spec.scaling_at text.now }
    ensures shorter { IfSome result (λ x. length x.1.now < length text.now) }
{
    if let Some(rest) = after(text, b"*") {
        return Some((Scaling::Multiply, rest));
    }
    if let Some(rest) = after(text, b"/") {
        return Some((Scaling::Divide, rest));
    }
    None
}

/// A relational operator between its periods at the front, and what follows it.
pub fn take_relation(text: &[u8]) -> Option<(Relation, &[u8])>
    ensures is { relation_and_rest result ≡ relation_at text.now }
    ensures shorter { IfSome result (λ x. length x.1.now < length text.now) }
{
    if let Some(rest) = after(text, b".LT.") {
        return Some((Relation::Lt, rest));
    }
    if let Some(rest) = after(text, b".LE.") {
        return Some((Relation::Le, rest));
    }
    if let Some(rest) = after(text, b".EQ.") {
        return Some((Relation::Eq, rest));
    }
    if let Some(rest) = after(text, b".NE.") {
        return Some((Relation::Ne, rest));
    }
    if let Some(rest) = after(text, b".GT.") {
        return Some((Relation::Gt, rest));
    }
    if let Some(rest) = after(text, b".GE.") {
        return Some((Relation::Ge, rest));
    }
    None
}

/// The term after its sign.
pub fn signed(alloc: Global, sign: Sign, term: Expr) -> Result<Expr, NoMemory>
    ensures { IfOk result (λ e. expr_tree e ≡ Forms.signed (sign_of sign) (expr_tree term)) }
{
    match sign {
        Sign::Negative => Expr::negation(alloc, term),
        Sign::Unsigned | Sign::Positive => Ok(term),
    }
}

/// The sum or the difference.
pub fn added(alloc: Global, operator: Adding, left: Expr, right: Expr) -> Result<Expr, NoMemory>
    ensures { IfOk result (λ e. expr_tree e ≡ Forms.added (adding_of operator) (expr_tree left) (expr_tree right)) }
{
    match operator {
        Adding::Add => Expr::sum(alloc, left, right),
        Adding::Subtract => Expr::difference(alloc, left, right),
    }
}

/// The product or the quotient.
pub fn scaled(alloc: Global, operator: Scaling, left: Expr, right: Expr) -> Result<Expr, NoMemory>
    ensures { IfOk result (λ e. expr_tree e ≡ Forms.scaled (scaling_of operator) (expr_tree left) (expr_tree right)) }
{
    match operator {
        Scaling::Multiply => Expr::product(alloc, left, right),
        Scaling::Divide => Expr::quotient(alloc, left, right),
    }
}
