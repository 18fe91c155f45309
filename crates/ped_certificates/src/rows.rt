//! Rows that steps make of others.

ghost use Rattle.std.specs.Prelude.{◌≡◌, ◌≤◌, ◌^◌, ◌*ℤ◌, pos, negsuc, map, replicate, length, All, IfOk, IfSome, int_div};
ghost use Rattle.std.specs.List.{list_all};
ghost use Rattle.std.specs.Ordering.{int_eq};
ghost use Rattle.ped_certificates.specs.Limits.{IsWithin, IsRow};
ghost use Rattle.ped_certificates.specs.Certificates as Spec;

use crate::numbers::{beyond, divides, is_small, multiple_and, quotient, rounded_down, whole};
use crate::systems::{Part, Row};
use ped_base::{Listed, NoMemory};
use std::alloc::Global;

/// As many zeros.
pub fn zeros(alloc: Global, count: usize) -> Result<Vec<i128>, NoMemory>
    ensures { IfOk result (λ numbers. numbers.items ≡ replicate count (pos 0)) }
{
    Ok(Vec::from_elem(alloc, 0, count)?)
}

/// Adds a multiple of a row's coefficients to those of a sum.
pub fn add_multiple(sum: &mut [i128], part: &Part, row: &[i128])
    requires as_many { length row.now ≡ length sum.old }
    requires row { All (IsWithin (2 ^ 64)) row.now }
    requires sum { All (IsWithin (2 ^ 105)) sum.old }
    ensures { sum.new ≡ Spec.plus (map (λ a. part.now.factor *ℤ a) row.now) sum.old }
{
    for (k, a) in row.iter().enumerate() {
        sum[k] = multiple_and(part, *a, sum[k]);
    }
}

/// Whether a number divides each coefficient of a row; zero divides none.
pub fn divides_each(divisor: u32, row: &Row) -> bool
    ensures { result ≡ Spec.divides_each divisor row.now }
{
    divisor > 0 && divides_all(divisor, row.coefficients.as_slice())
}

fn divides_all(divisor: u32, numbers: &[i128]) -> bool
    requires { 1 ≤ divisor }
    ensures { result ≡ list_all (Spec.divides divisor) numbers.now }
{
    for a in numbers {
        if !divides(divisor, *a) {
            return false;
        }
    }
    true
}

/// A row divided, with its constant rounded down, as an inequality.
pub fn divided(alloc: Global, row: &Row, divisor: u32) -> Result<Row, NoMemory>
    requires { 1 ≤ divisor }
    ensures { IfOk result (λ r. r ≡ Spec.divided divisor row.now) }
{
    let coefficients = quotients(alloc, row.coefficients.as_slice(), divisor)?;
    let constant = rounded_down(row.constant, divisor);
    Ok(Row {
        coefficients,
        constant,
        equation: false,
    })
}

fn quotients(alloc: Global, numbers: &[i128], divisor: u32) -> Result<Listed<i128>, NoMemory>
    requires { 1 ≤ divisor }
    ensures { IfOk result (λ quotients. quotients ≡ map (λ a. int_div a (pos divisor)) numbers.now) }
{
    let mut quotients = Listed::new(alloc);
    for a in numbers {
        quotients.push(quotient(*a, divisor))?;
    }
    Ok(quotients)
}

/// Whether each number of a row is within 2^64 of zero.
pub fn has_small_numbers(row: &Row) -> bool
    ensures { result ≡ Spec.has_small_numbers row.now }
{
    all_small(row.coefficients.as_slice()) && is_small(row.constant)
}

fn all_small(numbers: &[i128]) -> bool
    ensures { result ≡ list_all Spec.is_small numbers.now }
{
    for a in numbers {
        if !is_small(*a) {
            return false;
        }
    }
    true
}

/// Whether a row is never true as an inequality: all its coefficients are 0, and its constant is negative.
pub fn is_never(row: &Row) -> bool
    ensures { result ≡ Spec.is_never row.now }
{
    all_zero(row.coefficients.as_slice()) && row.constant < 0
}

fn all_zero(numbers: &[i128]) -> bool
    ensures { result ≡ list_all (λ a. int_eq a (pos 0)) numbers.now }
{
    for a in numbers {
        if *a != 0 {
            return false;
        }
    }
    true
}

/// Whether a row is an equation that whole numbers can't satisfy: the divisor divides its coefficients, and not its
/// constant.
pub fn is_indivisible(divisor: u32, row: &Row) -> bool
    ensures { result ≡ Spec.is_indivisible divisor row.now }
{
    row.equation && divides_each(divisor, row) && !divides(divisor, row.constant)
}

/// As many coefficients as unknowns, of which only that of this unknown isn't 0.
fn only_at(
    alloc: Global,
    unknowns: usize,
    unknown: usize,
    coefficient: i128,
) -> Result<Listed<i128>, NoMemory>
    requires first { 1 ≤ unknown }
    requires last { unknown ≤ unknowns }
    ensures { IfOk result (λ numbers. numbers ≡ Spec.only_at unknowns unknown coefficient) }
{
    let mut numbers = Listed::from_vec(zeros(alloc, unknown - 1)?);
    numbers.push(coefficient)?;
    let mut place = unknown;
    while place < unknowns {
        numbers.push(0)?;
        place += 1;
    }
    Ok(numbers)
}

/// The row that says that an unknown is at most a number.
pub fn at_most(alloc: Global, unknowns: usize, unknown: usize, most: i32) -> Result<Row, NoMemory>
    requires first { 1 ≤ unknown }
    requires last { unknown ≤ unknowns }
    ensures { IfOk result (λ r. r ≡ Spec.at_most unknowns unknown most) }
{
    let coefficients = only_at(alloc, unknowns, unknown, -1)?;
    let constant = whole(most);
    Ok(Row {
        coefficients,
        constant,
        equation: false,
    })
}

/// The row that says that an unknown is more than a number.
pub fn more_than(alloc: Global, unknowns: usize, unknown: usize, most: i32) -> Result<Row, NoMemory>
    requires first { 1 ≤ unknown }
    requires last { unknown ≤ unknowns }
    ensures { IfOk result (λ r. r ≡ Spec.more_than unknowns unknown most) }
{
    let coefficients = only_at(alloc, unknowns, unknown, 1)?;
    let constant = beyond(most);
    Ok(Row {
        coefficients,
        constant,
        equation: false,
    })
}
