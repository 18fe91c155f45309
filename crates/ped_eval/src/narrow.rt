//! Values of expressions in 64 bits, as nearly all values are: they are computed without notes and passed in registers.
//! Where a number on the way needs more bits, and where there is a fault, none is told.

ghost use Rattle.std.specs.Prelude.{◌≡◌, map, false, IfSome, Ok};
ghost use Rattle.ped_base.specs.Arithmetic.Arithmetic.{sum_of, difference_of, product_of};
ghost use Rattle.ped_tree.specs.Tree as Tree;
ghost use Rattle.ped_tree.specs.Views.{expr_tree, pack_exprs};
ghost use Rattle.ped_store.specs.Keeping.{memory_of};
ghost use Rattle.ped_eval.specs.Results.{value_at, next_result};
ghost use Rattle.ped_eval.specs.Noting.{HasNoted, seen_at, seen_next};
ghost use Rattle.ped_eval.specs.Values as Values;
ghost use Rattle.ped_eval.specs.Evaluation as Evaluation;
ghost use Rattle.ped_eval.specs.Scopes as Scopes;

use crate::evaluation::{element_by_many, value_of};
use crate::named::constant_named;
use crate::notes::Notes;
use crate::operations::Valued;
use crate::surroundings::Surroundings;
use ped_base::Name;
use ped_tree::Expr;

/// The value of an expression that is no operand of another; notes are made of what it reads, up to its fault. Where
/// nobody keeps them it is found in 64 bits, if it fits them.
///
/// # Errors
///
/// Those of `value_of`.
#[inline(always)]
pub(crate) fn whole_value(e: &Expr, around: &Surroundings, notes: &mut Notes) -> Valued
    ensures value { result ≡ value_at around.now (expr_tree e.now) }
    ensures noted { HasNoted notes.old (seen_at around.now (expr_tree e.now)) notes.new }
{
    if notes.kept {
        return value_of(e, around, notes);
    }
    unnoted_value(e, around, notes)
}

/// The value of an expression, of which no notes are kept. Where 64 bits don't do, and where it has a fault, it is
/// evaluated anew.
#[inline(always)]
pub(crate) fn unnoted_value(e: &Expr, around: &Surroundings, notes: &mut Notes) -> Valued
    requires { notes.old.kept ≡ false }
    ensures value { result ≡ value_at around.now (expr_tree e.now) }
    ensures noted { HasNoted notes.old (seen_at around.now (expr_tree e.now)) notes.new }
{
    match narrow_value(e, around, notes) {
        Some(value) => return Ok(i128::from(value)),
        None => return value_of(e, around, notes),
    }
}

/// The value of the second side of a relation, where the first has come to a value; else the fault of that.
#[inline(always)]
pub(crate) fn next_side(
    first: &Valued,
    e: &Expr,
    around: &Surroundings,
    notes: &mut Notes,
) -> Valued
    ensures value { result ≡ next_result first.now (value_at around.now (expr_tree e.now)) }
    ensures noted { HasNoted notes.old (seen_next first.now (seen_at around.now (expr_tree e.now))) notes.new }
{
    match first {
        Ok(_) => return whole_value(e, around, notes),
        Err(fault) => return Err(*fault),
    }
}

/// The value of an expression of which no notes are kept, where 64 bits hold it and the numbers on the way.
#[cycle(narrow_value)]
pub(crate) fn narrow_value(e: &Expr, around: &Surroundings, notes: &mut Notes) -> Option<i64>
    requires { notes.old.kept ≡ false }
    ensures value { IfSome result (λ v. value_at around.now (expr_tree e.now) ≡ Ok v) }
    ensures kept { notes.new.kept ≡ false }
{
    match e {
        Expr::Int(value) => return Some(i64::from(*value)),
        Expr::Var(name) => return narrow_scalar(name, around),
        Expr::Element(name, indices) => return narrow_element(name, indices, around, notes),
        Expr::Add(a, b) => {
            let left = narrow_operand(a, around, notes)?;
            let right = narrow_operand(b, around, notes)?;
            return narrow_sum(left, right);
        }
        Expr::Sub(a, b) => {
            let left = narrow_operand(a, around, notes)?;
            let right = narrow_operand(b, around, notes)?;
            return narrow_difference(left, right);
        }
        Expr::Mul(a, b) => {
            let left = narrow_operand(a, around, notes)?;
            let right = narrow_operand(b, around, notes)?;
            return narrow_product(left, right);
        }
        Expr::Neg(_) | Expr::Div(_, _) | Expr::Pow(_, _) | Expr::Call(_, _) => {
            return narrow_of_wide(e, around, notes);
        }
    }
}

/// The value of an operand, as `narrow_value` tells it. For numbers and scalars that needn't be entered.
#[cycle(narrow_value)]
#[inline(always)]
fn narrow_operand(e: &Expr, around: &Surroundings, notes: &mut Notes) -> Option<i64>
    requires { notes.old.kept ≡ false }
    ensures value { IfSome result (λ v. value_at around.now (expr_tree e.now) ≡ Ok v) }
    ensures kept { notes.new.kept ≡ false }
{
    match e {
        Expr::Int(value) => return Some(i64::from(*value)),
        Expr::Var(name) => return narrow_scalar(name, around),
        Expr::Element(_, _)
        | Expr::Neg(_)
        | Expr::Add(_, _)
        | Expr::Sub(_, _)
        | Expr::Mul(_, _)
        | Expr::Div(_, _)
        | Expr::Pow(_, _)
        | Expr::Call(_, _) => return narrow_value(e, around, notes),
    }
}

/// The value that 128 bits give, where 64 hold it.
#[inline(never)]
fn narrow_of_wide(e: &Expr, around: &Surroundings, notes: &mut Notes) -> Option<i64>
    requires { notes.old.kept ≡ false }
    ensures value { IfSome result (λ v. value_at around.now (expr_tree e.now) ≡ Ok v) }
    ensures kept { notes.new.kept ≡ false }
{
    narrow_result(&value_of(e, around, notes))
}

/// The value of an element, of which no notes are kept. One subscript or two need no room for seven.
#[cycle(narrow_value)]
#[inline(never)]
fn narrow_element(
    name: &Name,
    indices: &[Expr],
    around: &Surroundings,
    notes: &mut Notes,
) -> Option<i64>
    requires { notes.old.kept ≡ false }
    ensures value { IfSome result (λ v. value_at around.now (Tree.Element name.now (pack_exprs (map expr_tree indices.now))) ≡ Ok v) }
    ensures kept { notes.new.kept ≡ false }
{
    let [index] = indices else {
        return narrow_by_more(name, indices, around, notes);
    };
    let place = narrow_operand(index, around, notes)?;
    narrow_result(&around.store.get_element(name, &[i128::from(place)]))
}

/// The value of an element that hasn't one subscript.
#[cycle(narrow_value)]
#[inline(never)]
fn narrow_by_more(
    name: &Name,
    indices: &[Expr],
    around: &Surroundings,
    notes: &mut Notes,
) -> Option<i64>
    requires { notes.old.kept ≡ false }
    ensures value { IfSome result (λ v. value_at around.now (Tree.Element name.now (pack_exprs (map expr_tree indices.now))) ≡ Ok v) }
    ensures kept { notes.new.kept ≡ false }
{
    let [first, second] = indices else {
        return narrow_by_many(name, indices, around, notes);
    };
    let row = narrow_operand(first, around, notes)?;
    let column = narrow_operand(second, around, notes)?;
    narrow_result(
        &around
            .store
            .get_element(name, &[i128::from(row), i128::from(column)]),
    )
}

/// The value of an element with any number of subscripts.
#[inline(never)]
fn narrow_by_many(
    name: &Name,
    indices: &[Expr],
    around: &Surroundings,
    notes: &mut Notes,
) -> Option<i64>
    requires { notes.old.kept ≡ false }
    ensures value { IfSome result (λ v. value_at around.now (Tree.Element name.now (pack_exprs (map expr_tree indices.now))) ≡ Ok v) }
    ensures kept { notes.new.kept ≡ false }
{
    narrow_result(&element_by_many(name, indices, around, notes))
}

/// The value of a scalar or of a named constant, where 64 bits hold it.
#[inline(never)]
fn narrow_scalar(name: &Name, around: &Surroundings) -> Option<i64>
    ensures { IfSome result (λ v. value_at around.now (Tree.Var name.now) ≡ Ok v) }
{
    match constant_named(name, around.consts) {
        Some(constant) => return narrowed(constant),
        None => return narrow_variable(name, around),
    }
}

/// The value of a scalar variable, where 64 bits hold it.
fn narrow_variable(name: &Name, around: &Surroundings) -> Option<i64>
    ensures { IfSome result (λ v. (Values.variable_value (Scopes.index_value around.now.scope.now name.now) (memory_of around.now.store.now).cells (Scopes.cell_of around.now.scope.now name.now)).result ≡ Ok v) }
{
    match around.scope.index(name) {
        Some(value) => return narrowed(value),
        None => return narrow_stored(name, around),
    }
}

/// The value that the cell of a scalar holds, where 64 bits hold it.
fn narrow_stored(name: &Name, around: &Surroundings) -> Option<i64>
    ensures { IfSome result (λ v. (Evaluation.read_cell (memory_of around.now.store.now).cells (Scopes.cell_of around.now.scope.now name.now)).result ≡ Ok v) }
{
    if around.scope.has_copy(name) {
        return narrow_copy(name, around);
    }
    narrow_result(&around.store.get_scalar(name))
}

/// The value that a private copy of a scalar holds, where 64 bits hold it.
#[inline(never)]
fn narrow_copy(name: &Name, around: &Surroundings) -> Option<i64>
    ensures { IfSome result (λ v. (Evaluation.read_cell (memory_of around.now.store.now).cells (Scopes.cell_of around.now.scope.now name.now)).result ≡ Ok v) }
{
    narrow_result(&around.store.get(&around.scope.cell(name)))
}

/// A value, where 64 bits hold it.
#[inline(always)]
fn narrow_result(answer: &Valued) -> Option<i64>
    ensures { IfSome result (λ v. answer.now ≡ Ok v) }
{
    match answer {
        Ok(value) => return narrowed(*value),
        Err(_) => return None,
    }
}

/// A number, where it is within 2^62 of zero, so that 64 bits hold it.
#[inline(always)]
fn narrowed(value: i128) -> Option<i64>
    ensures { IfSome result (λ v. v ≡ value) }
{
    if -(1 << 62) <= value && value <= 1 << 62 {
        Some(value as i64)
    } else {
        None
    }
}

/// `a + b`, where 64 bits hold it.
#[inline(always)]
fn narrow_sum(a: i64, b: i64) -> Option<i64>
    ensures { IfSome result (λ v. sum_of a b ≡ Ok v) }
{
    a.checked_add(b)
}

/// `a - b`, where 64 bits hold it.
#[inline(always)]
fn narrow_difference(a: i64, b: i64) -> Option<i64>
    ensures { IfSome result (λ v. difference_of a b ≡ Ok v) }
{
    a.checked_sub(b)
}

/// `a * b`, where 64 bits hold it.
#[inline(always)]
fn narrow_product(a: i64, b: i64) -> Option<i64>
    ensures { IfSome result (λ v. product_of a b ≡ Ok v) }
{
    a.checked_mul(b)
}
