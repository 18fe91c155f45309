//! The values of a DO's variable in its first and its last iteration.

ghost use Rattle.std.specs.Prelude.{◌≡◌, ◌<◌, ◌^◌, ◌≤ℤ◌, ◌<ℤ◌, pos, neg_ℤ, int_rem, unsigned_abs, IsTrue, Some, false};
ghost use Rattle.ped_tree.specs.Views.{head_of};
ghost use Rattle.ped_rules.specs.Spans as Spec;
ghost use Rattle.ped_rules.specs.CodeSpans.{IsCourse};
ghost use Rattle.ped_loop_runs.specs.ped_symbols.specs.RightUses.RightLoops.{step_is_right, is_step};

use ped_tree::Do;
use ped_tree::constants::{Consts, constant};

/// The values of a DO's variable in its first and its last iteration; a literal may have both.
#[derive(Clone, Copy)]
pub struct Span {
    /// In the first iteration.
    pub first: i64,
    /// In the last iteration.
    pub last: i64,
}

/// How a DO goes through its iterations.
#[derive(Clone, Copy)]
pub enum Course {
    /// A bound isn't constant, or there is no iteration.
    Unknown,
    /// The variable has a least or a greatest value that no literal has.
    Far,
    /// The variable has these values.
    Near(Span),
}

/// How a DO goes through its iterations; its increment has a value that it may have.
pub fn course_of(consts: &Consts, d: &Do) -> Course
    requires { IsTrue (step_is_right consts.now (head_of d.now).step) }
    ensures { IsCourse (Spec.span_of consts.now (head_of d.now)) result }
{
    let Some(first) = constant(&d.first, consts) else {
        return Course::Unknown;
    };
    let Some(last) = constant(&d.last, consts) else {
        return Course::Unknown;
    };
    let Some(step) = constant(&d.step, consts) else {
        return Course::Unknown;
    };
    course_by(first, last, step)
}

/// The same by the values of the bounds and of the increment.
fn course_by(first: i128, last: i128, step: i128) -> Course
    requires { IsTrue (is_step (Some step)) }
    ensures { IsCourse (Spec.span_by (Some first) (Some last) (Some step)) result }
{
    if !has_iteration(first, last, step) {
        return Course::Unknown;
    }
    if is_far(first) {
        return Course::Far;
    }
    if last > 8589934592 {
        return Course::Far;
    }
    if last < -8589934592 {
        return Course::Far;
    }
    let last = last_value(first, last, step);
    if is_far(last) {
        return Course::Far;
    }
    Course::Near(Span {
        first: first as i64,
        last: last as i64,
    })
}

/// The value in the last iteration.
fn last_value(first: i128, last: i128, step: i128) -> i128
    requires near { Spec.is_far first ≡ false }
    requires above { neg_ℤ (pos 8589934592) ≤ℤ last }
    requires below { last ≤ℤ pos 8589934592 }
    requires step { IsTrue (is_step (Some step)) }
    ensures { result ≡ Spec.last_value first last step }
{
    let left = remainder(last - first, step);
    last - left
}

/// The remainder of a division.
fn remainder(n: i128, d: i128) -> i128
    requires dividend { neg_ℤ (pos (2 ^ 127)) <ℤ n }
    requires divisor { ¬ (d ≡ pos 0) }
    ensures value { result ≡ int_rem n d }
    ensures small { unsigned_abs result < unsigned_abs d }
{
    n % d
}

/// Whether there is an iteration.
fn has_iteration(first: i128, last: i128, step: i128) -> bool
    ensures { result ≡ Spec.has_iteration first last step }
{
    if step > 0 {
        first <= last
    } else {
        last <= first
    }
}

/// Whether no literal has this size.
pub fn is_far(n: i128) -> bool
    ensures { result ≡ Spec.is_far n }
{
    n > 2147483647 || n < -2147483647
}
