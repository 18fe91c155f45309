//! Forms over unknowns, and the rows that compare them. A form is a coefficient for each unknown and a constant.

ghost use Rattle.std.specs.Prelude.{◌≡◌, ◌≤◌, ◌++◌, ◌^◌, ◌-ℤ◌, pos, replicate, length, All, IfOk, OnOk};
ghost use Rattle.ped_affine.specs.AffineForms.{combined, combined_form};
ghost use Rattle.ped_certificates.specs.Certificates.{only_at};
ghost use Rattle.ped_certificates.specs.Limits.{IsWithin};
ghost use Rattle.ped_evidence.specs.Kept.{form_of, IsForm};
ghost use Rattle.ped_evidence.specs.Forms as Spec;

use ped_base::{Listed, NoMemory};
use ped_certificates::Row;
use std::alloc::Global;

/// A form: a sum of multiples of the unknowns, and a constant.
#[derive(Drop)]
pub struct Form {
    /// The coefficient of each unknown.
    pub coefficients: Listed<i128>,
    /// The constant.
    pub constant: i128,
}

/// Adds this many zeros.
pub fn add_zeros(numbers: &mut Listed<i128>, count: usize) -> Result<(), NoMemory>
    ensures { OnOk result (numbers.new ≡ numbers.old ++ replicate count (pos 0)) }
{
    for _ in 0..count {
        numbers.push(0)?;
    }
    Ok(())
}

/// A multiple of the unknown with this number, from 1, among so many.
pub fn multiple(
    alloc: Global,
    unknowns: usize,
    number: usize,
    factor: i128,
) -> Result<Form, NoMemory>
    requires first { 1 ≤ number }
    requires last { number ≤ unknowns }
    requires factor { IsWithin (2 ^ 62) factor }
    ensures form { IfOk result (λ f. form_of f ≡ Spec.multiple unknowns number factor) }
    ensures fits { IfOk result (IsForm unknowns (2 ^ 62) (2 ^ 62)) }
{
    Ok(Form {
        coefficients: only_at(alloc, unknowns, number, factor)?,
        constant: 0,
    })
}

/// A number at this place, from 1, among so many zeros.
fn only_at(
    alloc: Global,
    unknowns: usize,
    number: usize,
    factor: i128,
) -> Result<Listed<i128>, NoMemory>
    requires first { 1 ≤ number }
    requires last { number ≤ unknowns }
    ensures { IfOk result (λ numbers. numbers ≡ only_at unknowns number factor) }
{
    let mut numbers = Listed::new(alloc);
    add_zeros(&mut numbers, number - 1)?;
    numbers.push(factor)?;
    add_zeros(&mut numbers, unknowns - number)?;
    Ok(numbers)
}

/// The unknown with this number, from 1, among so many.
pub fn unknown(alloc: Global, unknowns: usize, number: usize) -> Result<Form, NoMemory>
    requires first { 1 ≤ number }
    requires last { number ≤ unknowns }
    ensures form { IfOk result (λ f. form_of f ≡ Spec.unknown unknowns number) }
    ensures fits { IfOk result (IsForm unknowns (2 ^ 62) (2 ^ 62)) }
{
    multiple(alloc, unknowns, number, 1)
}

/// A number as a form over so many unknowns.
pub fn number(alloc: Global, unknowns: usize, constant: i128) -> Result<Form, NoMemory>
    requires { IsWithin (2 ^ 62) constant }
    ensures form { IfOk result (λ f. form_of f ≡ Spec.number unknowns constant) }
    ensures fits { IfOk result (IsForm unknowns (2 ^ 62) (2 ^ 62)) }
{
    let mut coefficients = Listed::new(alloc);
    add_zeros(&mut coefficients, unknowns)?;
    Ok(Form {
        coefficients,
        constant,
    })
}

/// The difference of two forms with as many coefficients.
pub fn difference_of(alloc: Global, a: &Form, b: &Form) -> Result<Form, NoMemory>
    requires as_many { length a.now.coefficients ≡ length b.now.coefficients }
    requires first { All (IsWithin (2 ^ 63)) a.now.coefficients }
    requires second { All (IsWithin (2 ^ 63)) b.now.coefficients }
    requires constant { IsWithin (2 ^ 63) a.now.constant }
    requires other { IsWithin (2 ^ 63) b.now.constant }
    ensures { IfOk result (λ r. form_of r ≡ combined_form ◌-ℤ◌ (form_of a.now) (form_of b.now)) }
{
    Ok(Form {
        coefficients: differences(alloc, a.coefficients.as_slice(), b.coefficients.as_slice())?,
        constant: a.constant - b.constant,
    })
}

/// The differences of numbers, place by place.
pub fn differences(alloc: Global, a: &[i128], b: &[i128]) -> Result<Listed<i128>, NoMemory>
    requires as_many { length a.now ≡ length b.now }
    requires first { All (IsWithin (2 ^ 63)) a.now }
    requires second { All (IsWithin (2 ^ 63)) b.now }
    ensures differences { IfOk result (λ numbers. numbers ≡ combined ◌-ℤ◌ a.now b.now) }
    ensures as_many { IfOk result (λ numbers. length numbers ≡ length a.now) }
{
    let mut numbers = Listed::new(alloc);
    for i in 0..a.len() {
        numbers.push(difference(a[i], b[i]))?;
    }
    Ok(numbers)
}

/// A difference.
fn difference(a: i128, b: i128) -> i128
    requires first { IsWithin (2 ^ 63) a }
    requires second { IsWithin (2 ^ 63) b }
    ensures { result ≡ a -ℤ b }
{
    a - b
}

/// The row that says that a form is at least 0.
pub fn at_least_zero(f: Form) -> Row
    ensures { result ≡ Spec.at_least_zero (form_of f) }
{
    Row {
        coefficients: f.coefficients,
        constant: f.constant,
        equation: false,
    }
}

/// The row that says that a form is 0.
pub fn is_zero(f: Form) -> Row
    ensures { result ≡ Spec.is_zero (form_of f) }
{
    Row {
        coefficients: f.coefficients,
        constant: f.constant,
        equation: true,
    }
}
