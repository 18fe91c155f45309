//! What replaces CALLs where only statements of the profile are allowed.

ghost use Rattle.std.specs.Prelude.{◌≡◌, ◌++◌, IfOk, OnOk, map};
ghost use Rattle.ped_tree.specs.Tree.{Int, Assign};
ghost use Rattle.ped_tree.specs.Views.{expr_tree, pack_exprs, stmt_tree};
ghost use Rattle.ped_tree.specs.NamesIn.{expr_names, exprs_names};
ghost use Rattle.ped_units.specs.Units as Units;
ghost use Rattle.ped_units.specs.Reading as Spec;
ghost use Rattle.ped_units.specs.Views.{called_of};

use crate::items::Called;
use ped_base::{Name, NoMemory};
use ped_tree::{Expr, Stmt};
use std::alloc::Global;

/// A statement with the names of the CALL's arguments and as many references, which assigns nothing and is shorter.
pub fn stand_in(alloc: Global, called: &Called) -> Result<Stmt, NoMemory>
    ensures { IfOk result (λ s. stmt_tree s ≡ Spec.stand_in (called_of called.now)) }
{
    let mut names = Vec::new(alloc);
    add_names_of_all(&mut names, &called.arguments)?;
    let right = difference(alloc, &names)?;
    Ok(Stmt::assignment(Expr::literal(0), right))
}

/// The difference of names; 0 where there is none.
fn difference(alloc: Global, names: &[Name]) -> Result<Expr, NoMemory>
    ensures { IfOk result (λ e. expr_tree e ≡ Spec.difference_of names.now) }
{
    match names.split_first() {
        None => Ok(Expr::literal(0)),
        Some((first, rest)) => minus_names(alloc, Expr::Var(*first), rest),
    }
}

/// An expression minus each of these names.
fn minus_names(alloc: Global, from: Expr, names: &[Name]) -> Result<Expr, NoMemory>
    ensures { IfOk result (λ e. expr_tree e ≡ Spec.minus_names (expr_tree from) names.now) }
{
    let mut e = from;
    for name in names {
        e = Expr::difference(alloc, e, Expr::Var(*name))?;
    }
    Ok(e)
}

/// Adds the names in expressions, from left to right.
#[cycle(add_names)]
pub fn add_names_of_all(names: &mut Vec<Name>, exprs: &[Expr]) -> Result<(), NoMemory>
    ensures { OnOk result (names.new.items ≡ names.old.items ++ exprs_names (pack_exprs (map expr_tree exprs.now))) }
{
    for e in exprs {
        add_names(names, e)?;
    }
    Ok(())
}

/// Adds the names in an expression, from left to right.
#[cycle(add_names)]
fn add_names(names: &mut Vec<Name>, e: &Expr) -> Result<(), NoMemory>
    ensures { OnOk result (names.new.items ≡ names.old.items ++ expr_names (expr_tree e.now)) }
{
    match e {
        Expr::Int(_) => Ok(()),
        Expr::Var(name) => {
            names.push(*name)?;
            Ok(())
        }
        Expr::Element(name, subscripts) => {
            names.push(*name)?;
            add_names_of_all(names, subscripts)
        }
        Expr::Neg(a) => add_names(names, a),
        Expr::Add(a, b) | Expr::Sub(a, b) | Expr::Mul(a, b) | Expr::Div(a, b) | Expr::Pow(a, b) => {
            add_names(names, a)?;
            add_names(names, b)
        }
        Expr::Call(_, arguments) => add_names_of_all(names, arguments),
    }
}

/// The CALL as trees have it: an assignment to the literal 0, which no text reads as.
pub fn call_statement(alloc: Global, called: &Called) -> Result<Stmt, NoMemory>
    ensures { IfOk result (λ s. stmt_tree s ≡ Units.call_statement (called_of called.now)) }
{
    let right = reference(alloc, &called.name, &called.arguments)?;
    Ok(Stmt::assignment(Expr::literal(0), right))
}

/// A name with arguments, as a scalar or an element would be written.
fn reference(alloc: Global, name: &Name, arguments: &[Expr]) -> Result<Expr, NoMemory>
    ensures { IfOk result (λ e. expr_tree e ≡ Units.reference_of name.now (pack_exprs (map expr_tree arguments.now))) }
{
    if arguments.is_empty() {
        return Ok(Expr::Var(*name));
    }
    Ok(Expr::Element(*name, copies(alloc, arguments)?))
}

/// Copies of expressions, with the same plain trees.
pub fn copies(alloc: Global, exprs: &[Expr]) -> Result<Vec<Expr>, NoMemory>
    ensures { IfOk result (λ copies. map expr_tree copies.items ≡ map expr_tree exprs.now) }
{
    let mut copies = Vec::new(alloc);
    for e in exprs {
        copies.push(e.copy(alloc)?)?;
    }
    Ok(copies)
}
