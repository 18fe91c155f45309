//! Operations on the results of their operands: the leftmost fault of an operand is the fault of the operation.

ghost use Rattle.std.specs.Prelude.{◌≡◌, ◌&&◌, ◌||◌, not, Ok};
ghost use Rattle.ped_base.specs.Arithmetic.Arithmetic.{sum_of, difference_of, negation_of, product_of, quotient_of, power_of, remainder_of, absolute_value_of};
ghost use Rattle.ped_eval.specs.Evaluation as Evaluation;
ghost use Rattle.ped_eval.specs.Results.{of_one, of_two};
ghost use Rattle.ped_eval.specs.Values as Values;

use ped_base::arithmetic::{
    Fault, absolute_value, difference, negation, power, product, quotient, remainder, sum,
};
use ped_store::RunFault;
use ped_tree::Relation;

/// A number, or a fault.
pub type Valued = Result<i128, RunFault>;

/// `-a`.
pub fn negative(a: Valued) -> Valued
    ensures { result ≡ of_one (λ u. Evaluation.by_number (negation_of u)) a }
{
    of_run(negation(a?))
}

/// `a + b`.
pub fn added(a: Valued, b: Valued) -> Valued
    ensures { result ≡ of_two (λ u v. Evaluation.by_number (sum_of u v)) a b }
{
    of_run(sum(a?, b?))
}

/// `a - b`.
pub fn subtracted(a: Valued, b: Valued) -> Valued
    ensures { result ≡ of_two (λ u v. Evaluation.by_number (difference_of u v)) a b }
{
    of_run(difference(a?, b?))
}

/// `a * b`.
pub fn multiplied(a: Valued, b: Valued) -> Valued
    ensures { result ≡ of_two (λ u v. Evaluation.by_number (product_of u v)) a b }
{
    of_run(product(a?, b?))
}

/// `a / b`.
pub fn divided(a: Valued, b: Valued) -> Valued
    ensures { result ≡ of_two (λ u v. Evaluation.by_number (quotient_of u v)) a b }
{
    of_run(quotient(a?, b?))
}

/// `a ** b`.
pub fn raised(a: Valued, b: Valued) -> Valued
    ensures { result ≡ of_two (λ u v. Evaluation.by_number (power_of u v)) a b }
{
    of_run(power(a?, b?))
}

/// `MOD(a,b)`.
pub fn remaining(a: Valued, b: Valued) -> Valued
    ensures { result ≡ of_two (λ u v. Evaluation.by_number (remainder_of u v)) a b }
{
    of_run(remainder(a?, b?))
}

/// `ABS(a)`.
pub fn absolute(a: Valued) -> Valued
    ensures { result ≡ of_one (λ u. Evaluation.by_number (absolute_value_of u)) a }
{
    of_run(absolute_value(a?))
}

/// A relation of two numbers.
pub fn related(relation: &Relation, a: Valued, b: Valued) -> Result<bool, RunFault>
    ensures { result ≡ of_two (λ u v. Ok (Values.relation_holds relation.now u v)) a b }
{
    Ok(holds(*relation, a?, b?))
}

/// `.NOT. a`.
pub fn denied(a: Result<bool, RunFault>) -> Result<bool, RunFault>
    ensures { result ≡ of_one (λ u. Ok (not u)) a }
{
    Ok(!a?)
}

/// `a .AND. b`.
pub fn both(a: Result<bool, RunFault>, b: Result<bool, RunFault>) -> Result<bool, RunFault>
    ensures { result ≡ of_two (λ u v. Ok (u && v)) a b }
{
    Ok(a? & b?)
}

/// `a .OR. b`.
pub fn either(a: Result<bool, RunFault>, b: Result<bool, RunFault>) -> Result<bool, RunFault>
    ensures { result ≡ of_two (λ u v. Ok (u || v)) a b }
{
    Ok(a? | b?)
}

/// A result of arithmetic, its fault as one of the run.
fn of_run(outcome: Result<i128, Fault>) -> Valued
    ensures { result ≡ Evaluation.by_number outcome }
{
    Ok(outcome?)
}

/// Whether a relation of two numbers holds.
fn holds(relation: Relation, a: i128, b: i128) -> bool
    ensures { result ≡ Values.relation_holds relation a b }
{
    match relation {
        Relation::Lt => a < b,
        Relation::Le => a <= b,
        Relation::Eq => a == b,
        Relation::Ne => a != b,
        Relation::Gt => a > b,
        Relation::Ge => a >= b,
    }
}
