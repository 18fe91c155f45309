//! CALLs as trees hold them: assignments to literals.

ghost use Rattle.std.specs.Prelude.{◌≡◌, IfOk, MatchOption, map, None, Some, is_some};
ghost use Rattle.ped_tree.specs.Views.{expr_tree, pack_exprs};
ghost use Rattle.ped_links.specs.ped_units.specs.Units.{call_of, called_in};
ghost use Rattle.ped_links.specs.ped_units.specs.Expanding as Spec;
ghost use Rattle.ped_calls.specs.CallViews.{arguments_in, is_literal as is_literal_tree};
ghost use Rattle.ped_calls.specs.Meaning.{meanings_of};

use crate::replacing::{Meanings, all_replaced};
use ped_base::{Name, NoMemory};
use ped_tree::Expr;
use std::alloc::Global;

/// The subroutine's name, where an assignment with these sides is a CALL.
pub fn called_name<'a>(left: &Expr, right: &'a Expr) -> Option<&'a Name>
    ensures { MatchOption result (call_of (expr_tree left.now) (expr_tree right.now) ≡ None)
        (λ name. call_of (expr_tree left.now) (expr_tree right.now) ≡ Some (record { name = name.now; arguments = arguments_in (expr_tree right.now) })) }
{
    if is_literal(left) {
        reference_name(right)
    } else {
        None
    }
}

/// Whether an assignment with these sides is a CALL.
pub fn is_call(left: &Expr, right: &Expr) -> bool
    ensures { result ≡ is_some (call_of (expr_tree left.now) (expr_tree right.now)) }
{
    called_name(left, right).is_some()
}

fn is_literal(e: &Expr) -> bool
    ensures { result ≡ is_literal_tree (expr_tree e.now) }
{
    match e {
        Expr::Int(_) => true,
        Expr::Var(_)
        | Expr::Element(_, _)
        | Expr::Neg(_)
        | Expr::Add(_, _)
        | Expr::Sub(_, _)
        | Expr::Mul(_, _)
        | Expr::Div(_, _)
        | Expr::Pow(_, _)
        | Expr::Call(_, _) => false,
    }
}

/// The name of a scalar or of an element.
fn reference_name(e: &Expr) -> Option<&Name>
    ensures { MatchOption result (called_in (expr_tree e.now) ≡ None) (λ name. called_in (expr_tree e.now) ≡ Some (record { name = name.now; arguments = arguments_in (expr_tree e.now) })) }
{
    match e {
        Expr::Var(name) => Some(name),
        Expr::Element(name, _) => Some(name),
        Expr::Int(_)
        | Expr::Neg(_)
        | Expr::Add(_, _)
        | Expr::Sub(_, _)
        | Expr::Mul(_, _)
        | Expr::Div(_, _)
        | Expr::Pow(_, _)
        | Expr::Call(_, _) => None,
    }
}

/// The arguments of a CALL with this right side, with what stands for each name.
pub fn arguments_replaced(alloc: Global, m: &Meanings, right: &Expr) -> Result<Vec<Expr>, NoMemory>
    ensures { IfOk result (λ all. pack_exprs (map expr_tree all.items) ≡ Spec.all_replaced (meanings_of m.now) (arguments_in (expr_tree right.now))) }
{
    match right {
        Expr::Element(_, arguments) => all_replaced(alloc, m, arguments),
        Expr::Int(_)
        | Expr::Var(_)
        | Expr::Neg(_)
        | Expr::Add(_, _)
        | Expr::Sub(_, _)
        | Expr::Mul(_, _)
        | Expr::Div(_, _)
        | Expr::Pow(_, _)
        | Expr::Call(_, _) => Ok(Vec::new(alloc)),
    }
}
