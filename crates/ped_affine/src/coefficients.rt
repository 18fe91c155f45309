//! Coefficients of affine forms, one by one. After a result of false, the coefficients are meaningless.

ghost use Rattle.std.specs.Prelude.{◌≡◌, ◌≤◌, ◌^◌, ◌+ℤ◌, ◌*ℤ◌, neg_ℤ, ◌++◌, pos, unsigned_abs, map, length, replicate, All, OnOk};
ghost use Rattle.std.specs.Bool.{OnTrue};
ghost use Rattle.std.specs.List.{list_all};
ghost use Rattle.ped_tree.specs.Nests.{indices_of};
ghost use Rattle.ped_refs.specs.Loops.{nest_of};
ghost use Rattle.ped_views.specs.Whole.{is_zero};
ghost use Rattle.ped_views.specs.Limits.{IsSmallConstant, IsSmallCoefficient};
ghost use Rattle.ped_affine.specs.AffineForms as Spec;
ghost use Rattle.ped_affine.specs.AffineForms.{combined};

use crate::names::is_same;
use ped_base::{Name, NoMemory};
use ped_refs::Loop;
use ped_views::product;

/// 2^31, the farthest from zero that a coefficient may be.
const FARTHEST: u128 = 0x8000_0000;

/// `x + y`.
pub(crate) fn sum(x: i64, y: i64) -> i128
    ensures { result ≡ x +ℤ y }
{
    i128::from(x) + i128::from(y)
}

/// Whether a number is within 2^31 of zero.
fn is_small(a: i128) -> bool
    ensures { result ≡ Spec.is_small a }
{
    a.unsigned_abs() <= FARTHEST
}

/// Whether all coefficients are 0.
pub(crate) fn are_zeros(coefficients: &[i64]) -> bool
    ensures { result ≡ list_all is_zero coefficients.now }
{
    coefficients.iter().all(|a| *a == 0)
}

/// Changes the sign of each coefficient.
pub(crate) fn negate_all(coefficients: &mut [i64])
    requires { All IsSmallCoefficient coefficients.old }
    ensures { coefficients.new ≡ map neg_ℤ coefficients.old }
{
    for a in coefficients.iter_mut() {
        *a = -*a;
    }
}

/// Adds other coefficients, one to each; whether all sums are within 2^31 of zero.
pub(crate) fn add_all(sums: &mut [i64], others: &[i64]) -> bool
    requires as_many { length sums.old ≡ length others.now }
    requires first { All IsSmallCoefficient sums.old }
    requires second { All IsSmallCoefficient others.now }
    ensures answer { result ≡ list_all Spec.is_small (combined ◌+ℤ◌ sums.old others.now) }
    ensures sums { OnTrue result (sums.new ≡ combined ◌+ℤ◌ sums.old others.now) }
{
    for i in 0..sums.len() {
        let sum = sums[i] + others[i];
        if !is_small(i128::from(sum)) {
            return false;
        }
        sums[i] = sum;
    }
    true
}

/// Multiplies each coefficient by a number; whether all products are within 2^31 of zero.
pub(crate) fn multiply_all(products: &mut [i64], n: i64) -> bool
    ensures answer { result ≡ list_all Spec.is_small (map (λ a. n *ℤ a) products.old) }
    ensures products { OnTrue result (products.new ≡ map (λ a. n *ℤ a) products.old) }
{
    for i in 0..products.len() {
        let a = product(n, products[i]);
        if !is_small(a) {
            return false;
        }
        products[i] = a as i64;
    }
    true
}

/// Adds a coefficient for the variable of each loop: 1 for the one with this name, 0 for others.
pub(crate) fn add_of_loops(
    coefficients: &mut Vec<i64>,
    nest: &[Loop],
    name: &Name,
) -> Result<(), NoMemory>
    ensures { OnOk result (coefficients.new.items ≡ coefficients.old.items ++ map (Spec.unknown_coefficient name.now) (indices_of (nest_of nest.now))) }
{
    for l in nest {
        let d = l.statement;
        coefficients.push(i64::from(is_same(name, &d.variable)))?;
    }
    Ok(())
}

/// Adds a coefficient for each of other variables.
pub(crate) fn add_of_names(
    coefficients: &mut Vec<i64>,
    others: &[Name],
    name: &Name,
) -> Result<(), NoMemory>
    ensures { OnOk result (coefficients.new.items ≡ coefficients.old.items ++ map (Spec.unknown_coefficient name.now) others.now) }
{
    for other in others {
        coefficients.push(i64::from(is_same(name, other)))?;
    }
    Ok(())
}

/// Adds this many zeros.
pub(crate) fn add_zeros(coefficients: &mut Vec<i64>, count: usize) -> Result<(), NoMemory>
    ensures { OnOk result (coefficients.new.items ≡ coefficients.old.items ++ replicate count (pos 0)) }
{
    for _ in 0..count {
        coefficients.push(0)?;
    }
    Ok(())
}
