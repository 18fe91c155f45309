//! Constant parts of expressions: an operation has a value where its operands have one and it doesn't fault
//! (ANSI X3.9-1978, section 6.1.3).

ghost use Rattle.std.specs.Prelude.{◌≡◌};
ghost use Rattle.ped_base.specs.Arithmetic.Arithmetic.{sum_of, difference_of, negation_of, product_of};
ghost use Rattle.ped_tree.specs.Constants.NamedConstants.{value_named};
ghost use Rattle.ped_tree.specs.Constants.ConstantExpressions.{unary_value, binary_value};

use ped_base::Name;
use ped_base::arithmetic::{difference, negation, product, sum};
use ped_tree::constants::Consts;

/// The value of a named constant. Where there are no constants, the name isn't hashed.
pub(crate) fn named_value(constants: &Consts, name: &Name) -> Option<i64>
    ensures { result ≡ value_named constants.now name.now }
{
    if constants.is_empty() {
        return None;
    }
    constants.get(name)
}

/// The value of a negation.
pub(crate) fn constant_negation(a: Option<i128>) -> Option<i128>
    ensures { result ≡ unary_value negation_of a }
{
    negation(a?).ok()
}

/// The value of a sum.
pub(crate) fn constant_sum(a: Option<i128>, b: Option<i128>) -> Option<i128>
    ensures { result ≡ binary_value sum_of a b }
{
    sum(a?, b?).ok()
}

/// The value of a difference.
pub(crate) fn constant_difference(a: Option<i128>, b: Option<i128>) -> Option<i128>
    ensures { result ≡ binary_value difference_of a b }
{
    difference(a?, b?).ok()
}

/// The value of a product.
pub(crate) fn constant_product(a: Option<i128>, b: Option<i128>) -> Option<i128>
    ensures { result ≡ binary_value product_of a b }
{
    product(a?, b?).ok()
}
