//! The iteration that is taken out of a DO.

ghost use Rattle.std.specs.Prelude.{◌≡◌, ◌<◌, ◌≤ℤ◌, pos, neg_ℤ, ◌+ℤ◌, ◌-ℤ◌, int_rem, unsigned_abs, IsTrue, Some, true, false};
ghost use Rattle.ped_tree.specs.Views.{head_of};
ghost use Rattle.ped_rules.specs.Spans as Spans;
ghost use Rattle.ped_rules.specs.ped_symbols.specs.RightUses.RightLoops.{step_is_right, is_step};
ghost use Rattle.ped_reindex.specs.Peeling as Spec;
ghost use Rattle.ped_reindex.specs.CodePeeling.{IsFound};
ghost use Rattle.ped_reindex.specs.CodePeeling as Code;

use ped_rules::is_far;
use ped_tree::Do;
use ped_tree::constants::{Consts, constant};

/// The iteration that is taken out of a DO; a literal may have both numbers.
#[derive(Clone, Copy)]
pub(crate) struct TakenOut {
    /// The value of the variable in it.
    pub(crate) value: i64,
    /// The bound of the DO that is left.
    pub(crate) bound: i64,
}

/// Which iteration is taken out of a DO.
#[derive(Clone, Copy)]
pub(crate) enum Iteration {
    /// A bound isn't constant, or there is no iteration.
    Unknown,
    /// No literal has the value of the variable in it, or the bound of the DO that is left.
    Far,
    /// This one.
    Near(TakenOut),
}

/// The first or the last iteration of a DO, whose increment has a value that it may have.
pub(crate) fn iteration_of(consts: &Consts, d: &Do, last: bool) -> Iteration
    requires { IsTrue (step_is_right consts.now (head_of d.now).step) }
    ensures { IsFound (Spec.peeled_of last consts.now (head_of d.now)) result }
{
    let Some(first) = constant(&d.first, consts) else {
        return Iteration::Unknown;
    };
    let Some(end) = constant(&d.last, consts) else {
        return Iteration::Unknown;
    };
    let Some(step) = constant(&d.step, consts) else {
        return Iteration::Unknown;
    };
    iteration_by(first, end, step, last)
}

/// The same by the values of the bounds and of the increment.
fn iteration_by(first: i128, end: i128, step: i128, last: bool) -> Iteration
    requires { IsTrue (is_step (Some step)) }
    ensures { IsFound (Spec.peeled_by last step (Spans.span_by (Some first) (Some end) (Some step))) result }
{
    if !has_iteration(first, end, step) {
        return Iteration::Unknown;
    }
    if last {
        last_iteration(first, end, step)
    } else {
        first_iteration(first, step)
    }
}

/// Whether there is an iteration.
fn has_iteration(first: i128, end: i128, step: i128) -> bool
    ensures { result ≡ Spans.has_iteration first end step }
{
    if step > 0 { first <= end } else { end <= first }
}

/// The first iteration.
fn first_iteration(first: i128, step: i128) -> Iteration
    requires { IsTrue (is_step (Some step)) }
    ensures { IsFound (Some (record { value = first; bound = first +ℤ step })) result }
{
    if is_far(first) {
        return Iteration::Far;
    }
    taken_out(first, first + step)
}

/// The last iteration.
fn last_iteration(first: i128, end: i128, step: i128) -> Iteration
    requires step { IsTrue (is_step (Some step)) }
    requires some { Spans.has_iteration first end step ≡ true }
    ensures { IsFound (Some (record { value = Spans.last_value first end step; bound = Spans.last_value first end step -ℤ step })) result }
{
    if end > 8589934592 {
        return Iteration::Far;
    }
    if end < -8589934592 {
        return Iteration::Far;
    }
    let value = end - left(first, end, step);
    if is_far(value) {
        return Iteration::Far;
    }
    taken_out(value, value - step)
}

/// The iteration with this value, of which the DO that is left has this bound.
fn taken_out(value: i128, bound: i128) -> Iteration
    requires { Spans.is_far value ≡ false }
    ensures { IsFound (Some (record { value = value; bound = bound })) result }
{
    if is_far(bound) {
        return Iteration::Far;
    }
    Iteration::Near(TakenOut {
        value: value as i64,
        bound: bound as i64,
    })
}

/// The rest of the way from the first value to the limit, in steps of the increment. The way itself may have more than
/// 128 bits.
fn left(first: i128, end: i128, step: i128) -> i128
    requires step { IsTrue (is_step (Some step)) }
    requires some { Spans.has_iteration first end step ≡ true }
    requires above { neg_ℤ (pos 8589934592) ≤ℤ end }
    requires below { end ≤ℤ pos 8589934592 }
    ensures value { result ≡ int_rem (end -ℤ first) step }
    ensures small { unsigned_abs result < unsigned_abs step }
{
    if step == 1 || step == -1 {
        return 0;
    }
    let over = remainder(first, step);
    let rest = remainder(end - over, step);
    towards(rest, step)
}

/// The remainder of a division by a number that isn't -1.
fn remainder(n: i128, d: i128) -> i128
    requires divisor { ¬ (d ≡ pos 0) }
    requires other { ¬ (d ≡ neg_ℤ (pos 1)) }
    ensures value { result ≡ int_rem n d }
    ensures small { unsigned_abs result < unsigned_abs d }
{
    n % d
}

/// A remainder with the sign of the divisor.
fn towards(rest: i128, step: i128) -> i128
    requires step { IsTrue (is_step (Some step)) }
    requires small { unsigned_abs rest < unsigned_abs step }
    ensures { result ≡ Code.towards rest step }
{
    if rest < 0 && step > 0 || rest > 0 && step < 0 {
        return rest + step;
    }
    rest
}
