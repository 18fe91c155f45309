//! Expressions, added at the end of a text, without blanks and with the fewest parentheses that parse
//! to the same tree. If memory runs out, the text ends somewhere in what was to be added.

ghost use Rattle.std.specs.Prelude.{◌≡◌, ◌++◌, codes, map, OnOk};
ghost use Rattle.std.specs.Fmt.{decimal};
ghost use Rattle.ped_tree.specs.Printing as Spec;
ghost use Rattle.ped_tree.specs.Printing.{alone, expr_text, exprs_text, further_text, value_text, intrinsic_text, enclosed};
ghost use Rattle.ped_tree.specs.Views.{expr_tree, pack_exprs};
ghost use Rattle.ped_print.specs.Places.{place_of, encloses};

use ped_base::{Bytes, NoMemory, push_number};
use ped_tree::{Expr, Intrinsic};

/// The place of an expression (ANSI X3.9-1978, section 6.1.2).
#[derive(Clone, Copy, PartialEq, Eq)]
pub enum Place {
    /// As a whole, or at the front of a sum.
    Alone,
    /// As a term of a sum or after a sign.
    AsTerm,
    /// As a factor of a product or as an exponent.
    AsFactor,
    /// As the base of a power.
    AsBase,
}

/// Adds an expression that is alone.
pub fn push_value(out: &mut Bytes, e: &Expr) -> Result<(), NoMemory>
    ensures { OnOk result (out.new ≡ out.old ++ value_text (expr_tree e.now)) }
{
    push_expr(out, Place::Alone, e)
}

/// Adds an expression, in parentheses where its place needs them.
#[cycle(expressions)]
fn push_expr(out: &mut Bytes, place: Place, e: &Expr) -> Result<(), NoMemory>
    ensures { OnOk result (out.new ≡ out.old ++ expr_text (place_of place) (expr_tree e.now)) }
{
    if !is_enclosed(place, e) {
        return push_bare(out, e);
    }
    out.push(b'(')?;
    push_bare(out, e)?;
    out.push(b')')
}

/// Adds an expression without parentheses around it.
#[cycle(expressions)]
fn push_bare(out: &mut Bytes, e: &Expr) -> Result<(), NoMemory>
    ensures { OnOk result (out.new ≡ out.old ++ expr_text alone (expr_tree e.now)) }
{
    match e {
        Expr::Int(value) => push_number(out, u64::from(*value)),
        Expr::Var(name) => out.extend_from_slice(name.as_bytes()),
        Expr::Element(name, subscripts) => {
            out.extend_from_slice(name.as_bytes())?;
            push_enclosed(out, subscripts)
        }
        Expr::Neg(operand) => push_operand(out, b"-", Place::AsTerm, operand),
        Expr::Add(left, right) => {
            push_expr(out, Place::Alone, left)?;
            push_operand(out, b"+", Place::AsTerm, right)
        }
        Expr::Sub(left, right) => {
            push_expr(out, Place::Alone, left)?;
            push_operand(out, b"-", Place::AsTerm, right)
        }
        Expr::Mul(left, right) => {
            push_expr(out, Place::AsTerm, left)?;
            push_operand(out, b"*", Place::AsFactor, right)
        }
        Expr::Div(left, right) => {
            push_expr(out, Place::AsTerm, left)?;
            push_operand(out, b"/", Place::AsFactor, right)
        }
        Expr::Pow(base, exponent) => {
            push_expr(out, Place::AsBase, base)?;
            push_operand(out, b"**", Place::AsFactor, exponent)
        }
        Expr::Call(intrinsic, arguments) => {
            out.extend_from_slice(intrinsic_name(*intrinsic))?;
            push_enclosed(out, arguments)
        }
    }
}

/// Adds an operator, and the operand after it.
#[cycle(expressions)]
fn push_operand(out: &mut Bytes, operator: &[u8], place: Place, e: &Expr) -> Result<(), NoMemory>
    ensures { OnOk result (out.new ≡ out.old ++ operator.now ++ expr_text (place_of place) (expr_tree e.now)) }
{
    out.extend_from_slice(operator)?;
    push_expr(out, place, e)
}

/// Adds subscripts or arguments, between parentheses.
#[cycle(expressions)]
pub fn push_enclosed(out: &mut Bytes, all: &[Expr]) -> Result<(), NoMemory>
    ensures { OnOk result (out.new ≡ out.old ++ codes "(" ++ exprs_text (pack_exprs (map expr_tree all.now)) ++ codes ")") }
{
    out.push(b'(')?;
    push_exprs(out, all)?;
    out.push(b')')
}

/// Adds subscripts or arguments, with a comma between two.
#[cycle(expressions)]
fn push_exprs(out: &mut Bytes, all: &[Expr]) -> Result<(), NoMemory>
    ensures { OnOk result (out.new ≡ out.old ++ exprs_text (pack_exprs (map expr_tree all.now))) }
{
    let Some(first) = all.first() else {
        return Ok(());
    };
    push_expr(out, Place::Alone, first)?;
    for e in &all[1..] {
        out.push(b',')?;
        push_expr(out, Place::Alone, e)?;
    }
    Ok(())
}

/// Whether an expression needs parentheses where it is.
pub fn is_enclosed(place: Place, e: &Expr) -> bool
    ensures { result ≡ encloses (place_of place) (expr_tree e.now) }
{
    match e {
        Expr::Int(_) | Expr::Var(_) | Expr::Element(_, _) | Expr::Call(_, _) => false,
        Expr::Neg(_) | Expr::Add(_, _) | Expr::Sub(_, _) => place != Place::Alone,
        Expr::Mul(_, _) | Expr::Div(_, _) => place == Place::AsFactor || place == Place::AsBase,
        Expr::Pow(_, _) => place == Place::AsBase,
    }
}

/// The name of an intrinsic function.
pub fn intrinsic_name(intrinsic: Intrinsic) -> &'static [u8]
    ensures { result.now ≡ intrinsic_text intrinsic }
{
    match intrinsic {
        Intrinsic::Mod => b"MOD",
        Intrinsic::Abs => b"ABS",
        Intrinsic::Max => b"MAX",
        Intrinsic::Min => b"MIN",
    }
}

/// Whether an expression is the literal 1, which isn't printed as an increment or a lower bound.
pub fn is_one(e: &Expr) -> bool
    ensures { result ≡ Spec.is_one (expr_tree e.now) }
{
    match e {
        Expr::Int(value) => *value == 1,
        _ => false,
    }
}
