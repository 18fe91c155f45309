//! Sums of multiples of rows, and the rows that cuts add.

ghost use Rattle.std.specs.Prelude.{◌≡◌, ◌≤◌, ◌^◌, ◌++◌, length, All, IfOk, IfSome, MatchOption, Some, None, if◌then◌else◌};
ghost use Rattle.ped_certificates.specs.Limits.{IsRow, IsSystem};
ghost use Rattle.ped_certificates.specs.Certificates as Spec;

use crate::numbers::multiple_and;
use crate::rows::{add_multiple, divided, divides_each, has_small_numbers, zeros};
use crate::systems::{Part, Row, System};
use ped_base::{Listed, NoMemory};
use std::alloc::Global;

/// The row of this number, counted from 1: those of the system come first, then those that were added.
fn row_at<'a>(system: &'a System, added: &'a [Row], number: u32) -> Option<&'a Row>
    requires system { IsSystem system.now }
    requires added { All (IsRow system.now.unknowns (2 ^ 64)) added.now }
    ensures row { MatchOption result (Spec.row_at (system.now.rows ++ added.now) number ≡ None)
        (λ row. Spec.row_at (system.now.rows ++ added.now) number ≡ Some row.now) }
    ensures fits { IfSome result (λ row. IsRow system.now.unknowns (2 ^ 64) row.now) }
{
    if number == 0 {
        return None;
    }
    let place = number as usize - 1;
    let given = system.rows.as_slice();
    if place < given.len() {
        return Some(&given[place]);
    }
    if place - given.len() < added.len() {
        return Some(&added[place - given.len()]);
    }
    None
}

/// The row that a part names, where it may be multiplied by the part's factor.
fn row_of<'a>(system: &'a System, added: &'a [Row], part: &Part) -> Option<&'a Row>
    requires system { IsSystem system.now }
    requires added { All (IsRow system.now.unknowns (2 ^ 64)) added.now }
    ensures row { MatchOption result (Spec.part_of (system.now.rows ++ added.now) part.now ≡ None)
        (λ row. Spec.part_of (system.now.rows ++ added.now) part.now ≡ Some (Spec.multiple part.now.factor row.now)) }
    ensures fits { IfSome result (λ row. IsRow system.now.unknowns (2 ^ 64) row.now) }
{
    let row = row_at(system, added, part.row)?;
    if row.equation || part.factor >= 0 {
        Some(row)
    } else {
        None
    }
}

/// The sum of parts; none where a part is none.
pub fn sum_of(
    alloc: Global,
    system: &System,
    added: &[Row],
    parts: &[Part],
) -> Result<Option<Row>, NoMemory>
    requires system { IsSystem system.now }
    requires added { All (IsRow system.now.unknowns (2 ^ 64)) added.now }
    requires parts { length parts.now ≤ 500 }
    ensures sum { IfOk result
        (λ row. row ≡ Spec.sum_of system.now.unknowns (system.now.rows ++ added.now) parts.now) }
    ensures as_many { IfOk result (λ row. IfSome row (λ r. length r.coefficients ≡ system.now.unknowns)) }
{
    let mut coefficients = zeros(alloc, system.unknowns)?;
    let mut constant = 0;
    let mut equation = true;
    let mut left = parts.len();
    while left > 0 {
        left -= 1;
        let part = &parts[left];
        let Some(row) = row_of(system, added, part) else {
            return Ok(None);
        };
        add_multiple(&mut coefficients, part, row.coefficients.as_slice());
        constant = multiple_and(part, row.constant, constant);
        equation = row.equation && equation;
    }
    Ok(Some(Row {
        coefficients: Listed::from_vec(coefficients),
        constant,
        equation,
    }))
}

/// The row that a cut adds; none where there is none.
pub fn cut_of(
    alloc: Global,
    system: &System,
    added: &[Row],
    parts: &[Part],
    divisor: u32,
) -> Result<Option<Row>, NoMemory>
    requires system { IsSystem system.now }
    requires added { All (IsRow system.now.unknowns (2 ^ 64)) added.now }
    requires parts { length parts.now ≤ 500 }
    ensures cut { IfOk result
        (λ row. row ≡ Spec.cut_of system.now.unknowns (system.now.rows ++ added.now) parts.now divisor) }
    ensures fits { IfOk result (λ row. IfSome row (IsRow system.now.unknowns (2 ^ 64))) }
{
    let sum = sum_of(alloc, system, added, parts)?;
    match &sum {
        Some(row) => cut(alloc, row, divisor),
        None => Ok(None),
    }
}

/// A row divided, where the divisor divides its coefficients, and where the numbers are small.
fn cut(alloc: Global, row: &Row, divisor: u32) -> Result<Option<Row>, NoMemory>
    ensures cut { IfOk result
        (λ cut. cut ≡ (if Spec.divides_each divisor row.now then Spec.if_small (Spec.divided divisor row.now) else None)) }
    ensures fits { IfOk result (λ cut. IfSome cut (IsRow (length row.now.coefficients) (2 ^ 64))) }
{
    if !divides_each(divisor, row) {
        return Ok(None);
    }
    let divided = divided(alloc, row, divisor)?;
    Ok(if_small(divided))
}

fn if_small(row: Row) -> Option<Row>
    ensures row { result ≡ Spec.if_small row }
    ensures fits { IfSome result (IsRow (length row.coefficients) (2 ^ 64)) }
{
    if has_small_numbers(&row) {
        Some(row)
    } else {
        None
    }
}
