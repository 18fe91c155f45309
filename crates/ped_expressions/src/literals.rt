//! Literals above 2147483647, the greatest integer of the profile, in trees that were read.

ghost use Rattle.std.specs.Prelude.{◌≡◌, map};
ghost use Rattle.ped_tree.specs.Views.{expr_tree, pack_exprs, cond_tree};
ghost use Rattle.ped_tree.specs.Grammar.Literals as Spec;

use ped_tree::{Cond, Expr};

/// Whether a literal of the expression is too large.
#[cycle(literals)]
pub fn has_large_literal(e: &Expr) -> bool
    ensures { result ≡ Spec.has_large_literal (expr_tree e.now) }
{
    match e {
        Expr::Int(value) => *value > 2_147_483_647,
        Expr::Var(_) => false,
        Expr::Element(_, subscripts) => have_large_literal(subscripts),
        Expr::Neg(a) => has_large_literal(a),
        Expr::Add(a, b) => has_large_literal(a) || has_large_literal(b),
        Expr::Sub(a, b) => has_large_literal(a) || has_large_literal(b),
        Expr::Mul(a, b) => has_large_literal(a) || has_large_literal(b),
        Expr::Div(a, b) => has_large_literal(a) || has_large_literal(b),
        Expr::Pow(a, b) => has_large_literal(a) || has_large_literal(b),
        Expr::Call(_, arguments) => have_large_literal(arguments),
    }
}

#[cycle(literals)]
fn have_large_literal(exprs: &[Expr]) -> bool
    ensures { result ≡ Spec.have_large_literal (pack_exprs (map expr_tree exprs.now)) }
{
    for e in exprs {
        if has_large_literal(e) {
            return true;
        }
    }
    false
}

/// Whether a literal of the condition is too large.
#[cycle(cond_literals)]
pub fn cond_has_large_literal(c: &Cond) -> bool
    ensures { result ≡ Spec.cond_has_large_literal (cond_tree c.now) }
{
    match c {
        Cond::Rel(_, a, b) => has_large_literal(a) || has_large_literal(b),
        Cond::Not(a) => cond_has_large_literal(a),
        Cond::And(a, b) => cond_has_large_literal(a) || cond_has_large_literal(b),
        Cond::Or(a, b) => cond_has_large_literal(a) || cond_has_large_literal(b),
    }
}
