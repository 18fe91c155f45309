//! Subscripts as affine forms (Allen and Kennedy, section 3.1). A subscript is walked once, from its parts up.

ghost use Rattle.std.specs.Prelude.{◌≡◌, ◌+ℤ◌, ◌-ℤ◌, IfOk, IfSome, Some, None, option_map};
ghost use Rattle.std.specs.Option.{ForSome};
ghost use Rattle.ped_tree.specs.Tree.{Var};
ghost use Rattle.ped_tree.specs.Views.{expr_tree};
ghost use Rattle.ped_base.specs.Arithmetic.Arithmetic.{sum_of, difference_of, negation_of, product_of};
ghost use Rattle.ped_tree.specs.Constants.ConstantExpressions.{unary_value, binary_value};
ghost use Rattle.ped_affine.specs.AffineForms as Spec;
ghost use Rattle.ped_affine.specs.AffineForms.{affine_of, constant_or, combination};
ghost use Rattle.ped_affine.specs.KeptForms.{unknowns_of, terms_kept, kept, plain_form, IsOver, IsComplete};
ghost use Rattle.ped_affine.specs.KeptParts.{IsPart};

use crate::folding::{
    constant_difference, constant_negation, constant_product, constant_sum, named_value,
};
use crate::forms::{Form, Terms};
use ped_base::{Name, NoMemory};
use ped_tree::Expr;
use ped_tree::constants::constant;
use std::alloc::Global;

/// What is known of a subscript or of a part of it.
#[derive(Drop)]
pub(crate) struct Part {
    /// Its value, where it is constant.
    pub constant: Option<i128>,
    /// Its form, where it has one.
    pub form: Option<Form>,
}

/// A subscript as an affine form with a coefficient for each unknown, where it is one.
pub(crate) fn affine(alloc: Global, terms: &Terms, e: &Expr) -> Result<Option<Form>, NoMemory>
    ensures form { IfOk result (λ f. option_map plain_form f ≡ affine_of (terms_kept terms.now) (expr_tree e.now)) }
    ensures complete { IfOk result (λ f. IfSome f (IsComplete (unknowns_of terms.now))) }
{
    let part = part_of(alloc, terms, e)?;
    match part.form {
        Some(form) => Ok(Some(terms.filled(alloc, form)?)),
        None => Ok(None),
    }
}

/// What is known of a subscript or of a part of it.
#[cycle(parts)]
fn part_of(alloc: Global, terms: &Terms, e: &Expr) -> Result<Part, NoMemory>
    ensures { IfOk result (IsPart (terms_kept terms.now) (expr_tree e.now)) }
{
    match e {
        Expr::Int(value) => Ok(constant_part(alloc, terms, i128::from(*value))),
        Expr::Var(name) => variable_part(alloc, terms, name),
        Expr::Element(_, _) => Ok(Part {
            constant: None,
            form: None,
        }),
        Expr::Neg(a) => {
            let a = part_of(alloc, terms, a)?;
            Ok(negation_part(alloc, terms, a))
        }
        Expr::Add(a, b) => {
            let a = part_of(alloc, terms, a)?;
            let b = part_of(alloc, terms, b)?;
            Ok(sum_part(alloc, terms, a, b))
        }
        Expr::Sub(a, b) => {
            let a = part_of(alloc, terms, a)?;
            let b = part_of(alloc, terms, b)?;
            Ok(difference_part(alloc, terms, a, b))
        }
        Expr::Mul(a, b) => {
            let a = part_of(alloc, terms, a)?;
            let b = part_of(alloc, terms, b)?;
            Ok(product_part(alloc, terms, a, b))
        }
        Expr::Div(_, _) | Expr::Pow(_, _) | Expr::Call(_, _) => {
            Ok(value_part(alloc, terms, constant(e, terms.constants), None))
        }
    }
}

/// A part with this value, or else with this form.
fn value_part(alloc: Global, terms: &Terms, value: Option<i128>, form: Option<Form>) -> Part
    requires { ForSome form (IsOver (unknowns_of terms.now)) }
    ensures constant { result.constant ≡ value }
    ensures form { kept (unknowns_of terms.now) result.form ≡ constant_or (unknowns_of terms.now) value (kept (unknowns_of terms.now) form) }
    ensures over { IfSome result.form (IsOver (unknowns_of terms.now)) }
{
    match value {
        Some(value) => constant_part(alloc, terms, value),
        None => Part {
            constant: None,
            form,
        },
    }
}

/// A constant part.
fn constant_part(alloc: Global, terms: &Terms, value: i128) -> Part
    ensures constant { result.constant ≡ Some value }
    ensures form { kept (unknowns_of terms.now) result.form ≡ constant_or (unknowns_of terms.now) (Some value) None }
    ensures over { IfSome result.form (IsOver (unknowns_of terms.now)) }
{
    Part {
        constant: Some(value),
        form: terms.constant(alloc, value),
    }
}

/// A variable: a named constant, or an unknown.
fn variable_part(alloc: Global, terms: &Terms, name: &Name) -> Result<Part, NoMemory>
    ensures { IfOk result (IsPart (terms_kept terms.now) (Var name.now)) }
{
    match named_value(terms.constants, name) {
        Some(value) => Ok(constant_part(alloc, terms, i128::from(value))),
        None => Ok(Part {
            constant: None,
            form: terms.variable(alloc, name)?,
        }),
    }
}

/// A negation.
fn negation_part(alloc: Global, terms: &Terms, a: Part) -> Part
    requires { ForSome a.form (IsOver (unknowns_of terms.now)) }
    ensures constant { result.constant ≡ unary_value negation_of a.constant }
    ensures form { kept (unknowns_of terms.now) result.form ≡ constant_or (unknowns_of terms.now) (unary_value negation_of a.constant) (Spec.negation (kept (unknowns_of terms.now) a.form)) }
    ensures over { IfSome result.form (IsOver (unknowns_of terms.now)) }
{
    let value = constant_negation(a.constant);
    value_part(alloc, terms, value, terms.negation(a.form))
}

/// A sum.
fn sum_part(alloc: Global, terms: &Terms, a: Part, b: Part) -> Part
    requires first { ForSome a.form (IsOver (unknowns_of terms.now)) }
    requires second { ForSome b.form (IsOver (unknowns_of terms.now)) }
    ensures constant { result.constant ≡ binary_value sum_of a.constant b.constant }
    ensures form { kept (unknowns_of terms.now) result.form ≡ constant_or (unknowns_of terms.now) (binary_value sum_of a.constant b.constant)
        (combination ◌+ℤ◌ (kept (unknowns_of terms.now) a.form) (kept (unknowns_of terms.now) b.form)) }
    ensures over { IfSome result.form (IsOver (unknowns_of terms.now)) }
{
    let value = constant_sum(a.constant, b.constant);
    value_part(alloc, terms, value, terms.sum(a.form, b.form))
}

/// A difference.
fn difference_part(alloc: Global, terms: &Terms, a: Part, b: Part) -> Part
    requires first { ForSome a.form (IsOver (unknowns_of terms.now)) }
    requires second { ForSome b.form (IsOver (unknowns_of terms.now)) }
    ensures constant { result.constant ≡ binary_value difference_of a.constant b.constant }
    ensures form { kept (unknowns_of terms.now) result.form ≡ constant_or (unknowns_of terms.now) (binary_value difference_of a.constant b.constant)
        (combination ◌-ℤ◌ (kept (unknowns_of terms.now) a.form) (kept (unknowns_of terms.now) b.form)) }
    ensures over { IfSome result.form (IsOver (unknowns_of terms.now)) }
{
    let value = constant_difference(a.constant, b.constant);
    value_part(alloc, terms, value, terms.difference(a.form, b.form))
}

/// A product.
fn product_part(alloc: Global, terms: &Terms, a: Part, b: Part) -> Part
    requires first { ForSome a.form (IsOver (unknowns_of terms.now)) }
    requires second { ForSome b.form (IsOver (unknowns_of terms.now)) }
    ensures constant { result.constant ≡ binary_value product_of a.constant b.constant }
    ensures form { kept (unknowns_of terms.now) result.form ≡ constant_or (unknowns_of terms.now) (binary_value product_of a.constant b.constant)
        (Spec.product (kept (unknowns_of terms.now) a.form) (kept (unknowns_of terms.now) b.form)) }
    ensures over { IfSome result.form (IsOver (unknowns_of terms.now)) }
{
    let value = constant_product(a.constant, b.constant);
    value_part(alloc, terms, value, terms.product(a.form, b.form))
}
