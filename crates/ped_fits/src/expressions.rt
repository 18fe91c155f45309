//! Expressions, conditions and items that can be written: names and literals that are not too large, and as
//! many arguments as each intrinsic function takes (ANSI X3.9-1978, section 15.10).

ghost use Rattle.std.specs.Prelude.{◌≡◌, map};
ghost use Rattle.std.specs.List.{list_all};
ghost use Rattle.ped_tree.specs.Views.{expr_tree, pack_exprs, cond_tree, item_tree};
ghost use Rattle.ped_tree.specs.Grammar.Fits as Spec;
ghost use Rattle.ped_tree.specs.Grammar.Words as Words;

use crate::comments::is_printable;
use crate::names::name_fits;
use ped_base::Name;
use ped_limits::{GREATEST_LITERAL, intrinsic_of};
use ped_tree::{Cond, Expr, Intrinsic, PrintItem};

/// Whether an expression can be written.
#[cycle(expressions)]
pub fn expr_fits(e: &Expr) -> bool
    ensures { result ≡ Spec.expr_fits (expr_tree e.now) }
{
    match e {
        Expr::Int(value) => *value <= GREATEST_LITERAL,
        Expr::Var(name) => name_fits(name),
        Expr::Element(name, subscripts) => {
            name_fits(name)
                && is_no_intrinsic(name)
                && has_expr(subscripts)
                && exprs_fit(subscripts)
        }
        Expr::Neg(a) => expr_fits(a),
        Expr::Add(a, b) => expr_fits(a) && expr_fits(b),
        Expr::Sub(a, b) => expr_fits(a) && expr_fits(b),
        Expr::Mul(a, b) => expr_fits(a) && expr_fits(b),
        Expr::Div(a, b) => expr_fits(a) && expr_fits(b),
        Expr::Pow(a, b) => expr_fits(a) && expr_fits(b),
        Expr::Call(intrinsic, arguments) => {
            takes_arguments(*intrinsic, arguments) && exprs_fit(arguments)
        }
    }
}

/// Whether all of these can be written.
#[cycle(expressions)]
fn exprs_fit(exprs: &[Expr]) -> bool
    ensures { result ≡ Spec.exprs_fit (pack_exprs (map expr_tree exprs.now)) }
{
    for e in exprs {
        if !expr_fits(e) {
            return false;
        }
    }
    true
}

/// Whether no intrinsic function has the name.
fn is_no_intrinsic(name: &Name) -> bool
    ensures { result ≡ Spec.is_no_intrinsic (Words.intrinsic_of name.now) }
{
    match intrinsic_of(name.as_bytes()) {
        Some(_) => false,
        None => true,
    }
}

fn has_expr(exprs: &[Expr]) -> bool
    ensures { result ≡ Spec.has_expr (pack_exprs (map expr_tree exprs.now)) }
{
    !exprs.is_empty()
}

/// Whether the intrinsic function takes this many arguments.
fn takes_arguments(intrinsic: Intrinsic, arguments: &[Expr]) -> bool
    ensures { result ≡ Spec.takes_arguments intrinsic (pack_exprs (map expr_tree arguments.now)) }
{
    match intrinsic {
        Intrinsic::Mod => arguments.len() == 2,
        Intrinsic::Abs => arguments.len() == 1,
        Intrinsic::Max => arguments.len() >= 2,
        Intrinsic::Min => arguments.len() >= 2,
    }
}

/// Whether the expression is a scalar or an element that can be written.
pub fn target_fits(e: &Expr) -> bool
    ensures { result ≡ Spec.target_fits (expr_tree e.now) }
{
    match e {
        Expr::Var(_) | Expr::Element(_, _) => expr_fits(e),
        Expr::Int(_)
        | Expr::Neg(_)
        | Expr::Add(_, _)
        | Expr::Sub(_, _)
        | Expr::Mul(_, _)
        | Expr::Div(_, _)
        | Expr::Pow(_, _)
        | Expr::Call(_, _) => false,
    }
}

/// Whether each of these is a scalar or an element that can be written.
pub fn targets_fit(exprs: &[Expr]) -> bool
    ensures { result ≡ list_all Spec.target_fits (map expr_tree exprs.now) }
{
    for e in exprs {
        if !target_fits(e) {
            return false;
        }
    }
    true
}

/// Whether a condition can be written.
#[cycle(cond_fits)]
pub fn cond_fits(c: &Cond) -> bool
    ensures { result ≡ Spec.cond_fits (cond_tree c.now) }
{
    match c {
        Cond::Rel(_, a, b) => expr_fits(a) && expr_fits(b),
        Cond::Not(a) => cond_fits(a),
        Cond::And(a, b) => cond_fits(a) && cond_fits(b),
        Cond::Or(a, b) => cond_fits(a) && cond_fits(b),
    }
}

/// Whether the items of a PRINT can be written.
pub fn items_fit(items: &[PrintItem]) -> bool
    ensures { result ≡ list_all Spec.item_fits (map item_tree items.now) }
{
    for item in items {
        if !item_fits(item) {
            return false;
        }
    }
    true
}

fn item_fits(item: &PrintItem) -> bool
    ensures { result ≡ Spec.item_fits (item_tree item.now) }
{
    match item {
        PrintItem::Value(e) => expr_fits(e),
        PrintItem::Text(text) => is_printable(text.as_slice()),
    }
}
