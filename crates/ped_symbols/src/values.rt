//! Values that have to be constant, of named constants, bounds and increments.

ghost use Rattle.std.specs.Prelude.{◌≡◌, map, IfOk, OnOk};
ghost use Rattle.std.specs.List.{list_any};
ghost use Rattle.ped_tree.specs.Views.{expr_tree, stmt_tree, bound_tree, declarator_tree, decl_tree, value_tree};
ghost use Rattle.ped_symbols.specs.Values as Spec;

use ped_base::{Name, NoMemory};
use ped_tree::constants::{Consts, constant};
use ped_tree::{Bound, Decl, Declarator, Expr, Stmt};

/// The greatest value of a named constant, a bound or an increment; the least one is as far from zero.
const GREATEST_VALUE: i128 = 2_147_483_647;

/// The value of a constant expression: none where it isn't constant, faults or lies more than 2147483647
/// from zero.
pub fn fixed_value(consts: &Consts, e: &Expr) -> Option<i64>
    ensures { result ≡ Spec.fixed_value consts.now (expr_tree e.now) }
{
    match constant(e, consts) {
        Some(value) => within(value),
        None => None,
    }
}

fn within(value: i128) -> Option<i64>
    ensures { result ≡ Spec.within (Some value) }
{
    if -GREATEST_VALUE <= value && value <= GREATEST_VALUE {
        Some(value as i64)
    } else {
        None
    }
}

/// Whether an item of PARAMETER, a bound or an increment hasn't got the value that it has to have: of a
/// declaration, where the constants that hold before it are known.
pub fn decl_fails(consts: &mut Consts, decl: &Decl) -> Result<bool, NoMemory>
    ensures fails { IfOk result (λ fails. fails ≡ Spec.decl_fails consts.old (decl_tree decl.now)) }
    ensures consts { OnOk result (consts.new ≡ Spec.behind_decl consts.old (decl_tree decl.now)) }
{
    match decl {
        Decl::Integer(declarators) => Ok(some_declarator_fails(consts, declarators)),
        Decl::Dimension(declarators) => Ok(some_declarator_fails(consts, declarators)),
        Decl::Parameter(items) => some_item_fails(consts, items),
        Decl::Program(_) | Decl::Implicit | Decl::Save(_) | Decl::Comment(_) => Ok(false),
    }
}

/// Whether some item of a PARAMETER has no value; those that have one become constants.
fn some_item_fails(consts: &mut Consts, items: &[(Name, Expr)]) -> Result<bool, NoMemory>
    ensures fails { IfOk result (λ fails. fails ≡ Spec.some_item_fails consts.old (map value_tree items.now)) }
    ensures consts { OnOk result (consts.new ≡ Spec.behind_items consts.old (map value_tree items.now)) }
{
    let mut fails = false;
    for item in items {
        fails = item_fails(consts, &item.0, &item.1)? || fails;
    }
    Ok(fails)
}

/// Whether an item of a PARAMETER has no value; it becomes a constant where it has one.
fn item_fails(consts: &mut Consts, name: &Name, e: &Expr) -> Result<bool, NoMemory>
    ensures fails { IfOk result (λ fails. fails ≡ Spec.is_missing (Spec.fixed_value consts.old (expr_tree e.now))) }
    ensures consts { OnOk result (consts.new ≡ Spec.with_value consts.old name.now (Spec.fixed_value consts.old (expr_tree e.now))) }
{
    match fixed_value(consts, e) {
        Some(value) => {
            consts.insert(name, value)?;
            Ok(false)
        }
        None => Ok(true),
    }
}

fn some_declarator_fails(consts: &Consts, declarators: &[Declarator]) -> bool
    ensures { result ≡ list_any (Spec.declarator_fails consts.now) (map declarator_tree declarators.now) }
{
    for declarator in declarators {
        if some_bound_fails(consts, &declarator.bounds) {
            return true;
        }
    }
    false
}

fn some_bound_fails(consts: &Consts, bounds: &[Bound]) -> bool
    ensures { result ≡ list_any (Spec.bound_fails consts.now) (map bound_tree bounds.now) }
{
    for bound in bounds {
        if bound_fails(consts, bound) {
            return true;
        }
    }
    false
}

fn bound_fails(consts: &Consts, bound: &Bound) -> bool
    ensures { result ≡ Spec.bound_fails consts.now (bound_tree bound.now) }
{
    fixed_value(consts, &bound.lower).is_none() || fixed_value(consts, &bound.upper).is_none()
}

/// Whether the increment of a DO has no value, or is 0.
pub fn stmt_fails(consts: &Consts, statement: &Stmt) -> bool
    ensures { result ≡ Spec.stmt_fails consts.now (stmt_tree statement.now) }
{
    match statement {
        Stmt::Do(d) => is_bad_step(fixed_value(consts, &d.step)),
        Stmt::Assign { .. }
        | Stmt::If { .. }
        | Stmt::Print(_)
        | Stmt::Read(_)
        | Stmt::Stop
        | Stmt::Comment(_) => false,
    }
}

fn is_bad_step(step: Option<i64>) -> bool
    ensures { result ≡ Spec.is_bad_step step }
{
    match step {
        Some(value) => value == 0,
        None => true,
    }
}

/// Whether a declaration has a lower bound above its upper bound.
pub fn decl_is_empty(consts: &Consts, decl: &Decl) -> bool
    ensures { result ≡ Spec.decl_is_empty consts.now (decl_tree decl.now) }
{
    match decl {
        Decl::Integer(declarators) => some_declarator_is_empty(consts, declarators),
        Decl::Dimension(declarators) => some_declarator_is_empty(consts, declarators),
        Decl::Program(_) | Decl::Implicit | Decl::Parameter(_) | Decl::Save(_) | Decl::Comment(_) =>
            false,
    }
}

fn some_declarator_is_empty(consts: &Consts, declarators: &[Declarator]) -> bool
    ensures { result ≡ list_any (Spec.declarator_is_empty consts.now) (map declarator_tree declarators.now) }
{
    for declarator in declarators {
        if some_bound_is_empty(consts, &declarator.bounds) {
            return true;
        }
    }
    false
}

fn some_bound_is_empty(consts: &Consts, bounds: &[Bound]) -> bool
    ensures { result ≡ list_any (Spec.bound_is_empty consts.now) (map bound_tree bounds.now) }
{
    for bound in bounds {
        if bound_is_empty(consts, bound) {
            return true;
        }
    }
    false
}

fn bound_is_empty(consts: &Consts, bound: &Bound) -> bool
    ensures { result ≡ Spec.bound_is_empty consts.now (bound_tree bound.now) }
{
    is_above(
        fixed_value(consts, &bound.lower),
        fixed_value(consts, &bound.upper),
    )
}

fn is_above(lower: Option<i64>, upper: Option<i64>) -> bool
    ensures { result ≡ Spec.is_above lower upper }
{
    match (lower, upper) {
        (Some(lower), Some(upper)) => upper < lower,
        (Some(_), None) | (None, _) => false,
    }
}
