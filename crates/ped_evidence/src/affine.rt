//! Expressions as forms in the variables of the loops round them and in symbols (Allen and Kennedy, section 3.1).

ghost use Rattle.std.specs.Prelude.{◌≡◌, ◌≤◌, ◌+◌, ◌++◌, ◌^◌, ◌+ℤ◌, ◌-ℤ◌, ◌*ℤ◌, neg_ℤ, pos, map, length, All, IfOk, IfSome, OnOk, Some, None, option_map};
ghost use Rattle.std.specs.Option.{ForSome};
ghost use Rattle.std.specs.List.{list_all};
ghost use Rattle.ped_base.specs.Lists as Lists;
ghost use Rattle.ped_views.specs.Whole as whole;
ghost use Rattle.ped_tree.specs.Views.{expr_tree};
ghost use Rattle.ped_tree.specs.Nests.{indices_of};
ghost use Rattle.ped_refs.specs.Loops.{nest_of};
ghost use Rattle.ped_affine.specs.Ranges as Ranges;
ghost use Rattle.ped_affine.specs.AffineForms as Spec;
ghost use Rattle.ped_affine.specs.AffineForms.{affine_of, unknown_coefficient};
ghost use Rattle.ped_certificates.specs.Limits.{IsWithin};
ghost use Rattle.ped_evidence.specs.Kept.{form_of, names_of, terms_kept, IsForm};

use crate::forms::{Form, differences};
use ped_base::{Listed, Name, NoMemory, is_among};
use ped_refs::{Loop, is_index};
use ped_tree::Expr;
use ped_tree::constants::{Consts, constant};
use std::alloc::Global;

/// The farthest from zero that a coefficient may be.
const FARTHEST_COEFFICIENT: u128 = 1 << 31;

/// The farthest from zero that a constant may be.
const FARTHEST_CONSTANT: u128 = 1 << 62;

/// Of what a form can be made.
#[derive(Clone, Copy)]
pub struct Unknowns<'a> {
    /// The named constants.
    pub constants: &'a Consts,
    /// The loops round the expression.
    pub around: &'a [Loop<'a>],
    /// The symbols.
    pub symbols: &'a [Name],
}

/// An expression as a form, where it has one.
#[cycle(affine)]
#[tactic(auto, using(crate::proofs::AffineSteps::known))]
pub fn affine(alloc: Global, unknowns: &Unknowns, e: &Expr) -> Result<Option<Form>, NoMemory>
    ensures form { IfOk result (λ f. option_map form_of f ≡ affine_of (terms_kept unknowns.now) (expr_tree e.now)) }
    ensures fits { IfOk result (λ f. IfSome f (IsForm (length (names_of unknowns.now)) (2 ^ 31) (2 ^ 62))) }
{
    if let Some(n) = constant(e, unknowns.constants) {
        return unknowns.constant(alloc, n);
    }
    match e {
        Expr::Var(name) => unknowns.variable(alloc, name),
        Expr::Neg(a) => {
            let a = affine(alloc, unknowns, a)?;
            unknowns.negation(alloc, a)
        }
        Expr::Add(a, b) => {
            let a = affine(alloc, unknowns, a)?;
            let b = affine(alloc, unknowns, b)?;
            unknowns.sum(alloc, a, b)
        }
        Expr::Sub(a, b) => {
            let a = affine(alloc, unknowns, a)?;
            let b = affine(alloc, unknowns, b)?;
            unknowns.difference(alloc, a, b)
        }
        Expr::Mul(a, b) => {
            let a = affine(alloc, unknowns, a)?;
            let b = affine(alloc, unknowns, b)?;
            unknowns.product(alloc, a, b)
        }
        Expr::Int(_) | Expr::Element(_, _) | Expr::Div(_, _) | Expr::Pow(_, _) | Expr::Call(_, _) =>
            Ok(None),
    }
}

impl Unknowns<'_> {
    /// The form of a constant, where that is within 2^62 of zero.
    fn constant(&self, alloc: Global, n: i128) -> Result<Option<Form>, NoMemory>
        ensures form { IfOk result (λ f. option_map form_of f ≡ Spec.within_limits (Spec.constant_form (names_of self.now) n)) }
        ensures fits { IfOk result (λ f. IfSome f (IsForm (length (names_of self.now)) (2 ^ 31) (2 ^ 62))) }
    {
        let mut coefficients = Listed::new(alloc);
        add_zeros_of_loops(&mut coefficients, self.around)?;
        add_zeros_of_names(&mut coefficients, self.symbols)?;
        Ok(limited(Form {
            coefficients,
            constant: n,
        }))
    }

    /// The form of a variable, where it is an unknown.
    fn variable(&self, alloc: Global, name: &Name) -> Result<Option<Form>, NoMemory>
        ensures form { IfOk result (λ f. option_map form_of f ≡ Spec.variable_form (names_of self.now) name.now) }
        ensures fits { IfOk result (λ f. IfSome f (IsForm (length (names_of self.now)) (2 ^ 31) (2 ^ 62))) }
    {
        if !is_index(name, self.around) && !is_among(name, self.symbols) {
            return Ok(None);
        }
        let mut coefficients = Listed::new(alloc);
        add_of_loops(&mut coefficients, self.around, name)?;
        add_of_names(&mut coefficients, self.symbols, name)?;
        Ok(limited(Form {
            coefficients,
            constant: 0,
        }))
    }

    /// The form with the opposite sign.
    fn negation(&self, alloc: Global, a: Option<Form>) -> Result<Option<Form>, NoMemory>
        requires { ForSome a (IsForm (length (names_of self.now)) (2 ^ 31) (2 ^ 62)) }
        ensures form { IfOk result (λ f. option_map form_of f ≡ Spec.negation (option_map form_of a)) }
        ensures fits { IfOk result (λ f. IfSome f (IsForm (length (names_of self.now)) (2 ^ 31) (2 ^ 62))) }
    {
        match a {
            Some(a) => Ok(limited(opposite_of(alloc, &a)?)),
            None => Ok(None),
        }
    }

    /// The sum of two forms, where it stays within the limits.
    fn sum(&self, alloc: Global, a: Option<Form>, b: Option<Form>) -> Result<Option<Form>, NoMemory>
        requires first { ForSome a (IsForm (length (names_of self.now)) (2 ^ 31) (2 ^ 62)) }
        requires second { ForSome b (IsForm (length (names_of self.now)) (2 ^ 31) (2 ^ 62)) }
        ensures form { IfOk result (λ f. option_map form_of f ≡ Spec.combination ◌+ℤ◌ (option_map form_of a) (option_map form_of b)) }
        ensures fits { IfOk result (λ f. IfSome f (IsForm (length (names_of self.now)) (2 ^ 31) (2 ^ 62))) }
    {
        match (a, b) {
            (Some(a), Some(b)) => Ok(limited(sum_of(alloc, &a, &b)?)),
            _ => Ok(None),
        }
    }

    /// The difference of two forms, where it stays within the limits.
    fn difference(
        &self,
        alloc: Global,
        a: Option<Form>,
        b: Option<Form>,
    ) -> Result<Option<Form>, NoMemory>
        requires first { ForSome a (IsForm (length (names_of self.now)) (2 ^ 31) (2 ^ 62)) }
        requires second { ForSome b (IsForm (length (names_of self.now)) (2 ^ 31) (2 ^ 62)) }
        ensures form { IfOk result (λ f. option_map form_of f ≡ Spec.combination ◌-ℤ◌ (option_map form_of a) (option_map form_of b)) }
        ensures fits { IfOk result (λ f. IfSome f (IsForm (length (names_of self.now)) (2 ^ 31) (2 ^ 62))) }
    {
        match (a, b) {
            (Some(a), Some(b)) => Ok(limited(difference_of(alloc, &a, &b)?)),
            _ => Ok(None),
        }
    }

    /// The product of two forms, where one is constant and the product stays within the limits.
    fn product(
        &self,
        alloc: Global,
        a: Option<Form>,
        b: Option<Form>,
    ) -> Result<Option<Form>, NoMemory>
        requires first { ForSome a (IsForm (length (names_of self.now)) (2 ^ 31) (2 ^ 62)) }
        requires second { ForSome b (IsForm (length (names_of self.now)) (2 ^ 31) (2 ^ 62)) }
        ensures form { IfOk result (λ f. option_map form_of f ≡ Spec.product (option_map form_of a) (option_map form_of b)) }
        ensures fits { IfOk result (λ f. IfSome f (IsForm (length (names_of self.now)) (2 ^ 31) (2 ^ 62))) }
    {
        match (a, b) {
            (Some(a), Some(b)) => product_of(alloc, &a, &b),
            _ => Ok(None),
        }
    }
}

/// The product of two forms, where one is constant and the product stays within the limits.
fn product_of(alloc: Global, a: &Form, b: &Form) -> Result<Option<Form>, NoMemory>
    requires first { IsForm (length a.now.coefficients) (2 ^ 31) (2 ^ 62) a.now }
    requires second { IsForm (length a.now.coefficients) (2 ^ 31) (2 ^ 62) b.now }
    ensures form { IfOk result (λ f. option_map form_of f ≡ Spec.product (Some (form_of a.now)) (Some (form_of b.now))) }
    ensures fits { IfOk result (λ f. IfSome f (IsForm (length a.now.coefficients) (2 ^ 31) (2 ^ 62))) }
{
    if is_constant(a) {
        Ok(limited(multiple_of(alloc, a.constant, b)?))
    } else if is_constant(b) {
        Ok(limited(multiple_of(alloc, b.constant, a)?))
    } else {
        Ok(None)
    }
}

/// Whether no unknown is left in a form.
pub fn is_constant(f: &Form) -> bool
    ensures { result ≡ Spec.is_constant_form (form_of f.now) }
{
    are_zeros(f.coefficients.as_slice())
}

fn are_zeros(numbers: &[i128]) -> bool
    ensures { result ≡ list_all whole.is_zero numbers.now }
{
    for n in numbers {
        if *n != 0 {
            return false;
        }
    }
    true
}

/// The form, where its coefficients are within 2^31 of zero and its constant within 2^62.
fn limited(f: Form) -> Option<Form>
    ensures form { option_map form_of result ≡ Spec.within_limits (form_of f) }
    ensures fits { IfSome result (IsForm (length f.coefficients) (2 ^ 31) (2 ^ 62)) }
{
    if are_small(f.coefficients.as_slice()) && is_near(f.constant) {
        Some(f)
    } else {
        None
    }
}

/// Whether numbers are within 2^31 of zero.
fn are_small(numbers: &[i128]) -> bool
    ensures { result ≡ list_all Spec.is_small numbers.now }
{
    for n in numbers {
        if n.unsigned_abs() > FARTHEST_COEFFICIENT {
            return false;
        }
    }
    true
}

/// Whether a number is within 2^62 of zero.
fn is_near(n: i128) -> bool
    ensures { result ≡ Ranges.is_near n }
{
    n.unsigned_abs() <= FARTHEST_CONSTANT
}

/// A form with the opposite sign.
fn opposite_of(alloc: Global, f: &Form) -> Result<Form, NoMemory>
    requires { IsForm (length f.now.coefficients) (2 ^ 31) (2 ^ 62) f.now }
    ensures form { IfOk result (λ r. form_of r ≡ Spec.opposite (form_of f.now)) }
    ensures as_many { IfOk result (λ r. length r.coefficients ≡ length f.now.coefficients) }
{
    Ok(Form {
        coefficients: opposites(alloc, f.coefficients.as_slice())?,
        constant: opposite(f.constant),
    })
}

/// Numbers with the opposite sign.
fn opposites(alloc: Global, numbers: &[i128]) -> Result<Listed<i128>, NoMemory>
    requires { All (IsWithin (2 ^ 62)) numbers.now }
    ensures opposites { IfOk result (λ found. found ≡ map neg_ℤ numbers.now) }
    ensures as_many { IfOk result (λ found. length found ≡ length numbers.now) }
{
    let mut found = Listed::new(alloc);
    for n in numbers {
        found.push(opposite(*n))?;
    }
    Ok(found)
}

/// A number with the opposite sign.
fn opposite(n: i128) -> i128
    requires { IsWithin (2 ^ 62) n }
    ensures { result ≡ neg_ℤ n }
{
    -n
}

/// A multiple of a form.
fn multiple_of(alloc: Global, factor: i128, f: &Form) -> Result<Form, NoMemory>
    requires factor { IsWithin (2 ^ 62) factor }
    requires form { IsForm (length f.now.coefficients) (2 ^ 31) (2 ^ 62) f.now }
    ensures form { IfOk result (λ r. form_of r ≡ Spec.times factor (form_of f.now)) }
    ensures as_many { IfOk result (λ r. length r.coefficients ≡ length f.now.coefficients) }
{
    Ok(Form {
        coefficients: multiples(alloc, factor, f.coefficients.as_slice())?,
        constant: product(factor, f.constant),
    })
}

/// The multiples of numbers.
fn multiples(alloc: Global, factor: i128, numbers: &[i128]) -> Result<Listed<i128>, NoMemory>
    requires factor { IsWithin (2 ^ 62) factor }
    requires numbers { All (IsWithin (2 ^ 62)) numbers.now }
    ensures multiples { IfOk result (λ found. found ≡ map (λ a. factor *ℤ a) numbers.now) }
    ensures as_many { IfOk result (λ found. length found ≡ length numbers.now) }
{
    let mut found = Listed::new(alloc);
    for n in numbers {
        found.push(product(factor, *n))?;
    }
    Ok(found)
}

/// A product.
#[tactic(auto, using(crate::proofs::Fitting::fitting))]
fn product(a: i128, b: i128) -> i128
    requires first { IsWithin (2 ^ 62) a }
    requires second { IsWithin (2 ^ 62) b }
    ensures { result ≡ a *ℤ b }
{
    a * b
}

/// The sum of two forms.
fn sum_of(alloc: Global, a: &Form, b: &Form) -> Result<Form, NoMemory>
    requires first { IsForm (length a.now.coefficients) (2 ^ 31) (2 ^ 62) a.now }
    requires second { IsForm (length a.now.coefficients) (2 ^ 31) (2 ^ 62) b.now }
    ensures form { IfOk result (λ r. form_of r ≡ Spec.combined_form ◌+ℤ◌ (form_of a.now) (form_of b.now)) }
    ensures as_many { IfOk result (λ r. length r.coefficients ≡ length a.now.coefficients) }
{
    Ok(Form {
        coefficients: sums(alloc, a.coefficients.as_slice(), b.coefficients.as_slice())?,
        constant: a.constant + b.constant,
    })
}

/// The sums of numbers, place by place.
fn sums(alloc: Global, a: &[i128], b: &[i128]) -> Result<Listed<i128>, NoMemory>
    requires as_many { length a.now ≡ length b.now }
    requires first { All (IsWithin (2 ^ 62)) a.now }
    requires second { All (IsWithin (2 ^ 62)) b.now }
    ensures sums { IfOk result (λ numbers. numbers ≡ Spec.combined ◌+ℤ◌ a.now b.now) }
    ensures as_many { IfOk result (λ numbers. length numbers ≡ length a.now) }
{
    let mut numbers = Listed::new(alloc);
    for i in 0..a.len() {
        numbers.push(total(a[i], b[i]))?;
    }
    Ok(numbers)
}

/// A sum.
fn total(a: i128, b: i128) -> i128
    requires first { IsWithin (2 ^ 62) a }
    requires second { IsWithin (2 ^ 62) b }
    ensures { result ≡ a +ℤ b }
{
    a + b
}

/// The difference of two forms.
fn difference_of(alloc: Global, a: &Form, b: &Form) -> Result<Form, NoMemory>
    requires first { IsForm (length a.now.coefficients) (2 ^ 31) (2 ^ 62) a.now }
    requires second { IsForm (length a.now.coefficients) (2 ^ 31) (2 ^ 62) b.now }
    ensures form { IfOk result (λ r. form_of r ≡ Spec.combined_form ◌-ℤ◌ (form_of a.now) (form_of b.now)) }
    ensures as_many { IfOk result (λ r. length r.coefficients ≡ length a.now.coefficients) }
{
    Ok(Form {
        coefficients: differences(alloc, a.coefficients.as_slice(), b.coefficients.as_slice())?,
        constant: a.constant - b.constant,
    })
}

/// Adds a zero for the variable of each loop.
fn add_zeros_of_loops(coefficients: &mut Listed<i128>, around: &[Loop]) -> Result<(), NoMemory>
    ensures { OnOk result (coefficients.new ≡ coefficients.old ++ map (λ x. pos 0) (indices_of (nest_of around.now))) }
{
    for _l in around {
        coefficients.push(0)?;
    }
    Ok(())
}

/// Adds a zero for each symbol.
fn add_zeros_of_names(coefficients: &mut Listed<i128>, symbols: &[Name]) -> Result<(), NoMemory>
    ensures { OnOk result (coefficients.new ≡ coefficients.old ++ map (λ x. pos 0) symbols.now) }
{
    for _symbol in symbols {
        coefficients.push(0)?;
    }
    Ok(())
}

/// Adds a coefficient for the variable of each loop: 1 for the one with this name, 0 for others.
fn add_of_loops(
    coefficients: &mut Listed<i128>,
    around: &[Loop],
    name: &Name,
) -> Result<(), NoMemory>
    ensures { OnOk result (coefficients.new ≡ coefficients.old ++ map (unknown_coefficient name.now) (indices_of (nest_of around.now))) }
{
    for l in around {
        coefficients.push(i128::from(l.has_variable(name)))?;
    }
    Ok(())
}

/// Adds a coefficient for each symbol.
fn add_of_names(
    coefficients: &mut Listed<i128>,
    symbols: &[Name],
    name: &Name,
) -> Result<(), NoMemory>
    ensures { OnOk result (coefficients.new ≡ coefficients.old ++ map (unknown_coefficient name.now) symbols.now) }
{
    for symbol in symbols {
        coefficients.push(i128::from(is_same(name, symbol)))?;
    }
    Ok(())
}

/// Whether two names are the same.
fn is_same(a: &Name, b: &Name) -> bool
    ensures { result ≡ Lists.is_same_text a.now b.now }
{
    a == b
}
