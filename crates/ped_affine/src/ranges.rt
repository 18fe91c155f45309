//! The ranges of DO loops (ANSI X3.9-1978, section 11.10.3).

ghost use Rattle.std.specs.Prelude.{◌≡◌, ◌≢◌, [], ◌-◌, ◌<◌, ◌≤◌, map, take, length, pos, unsigned_abs, slice_get, Some};
ghost use Rattle.ped_tree.specs.Views.{expr_tree, pack_exprs};
ghost use Rattle.ped_refs.specs.Loops.{nest_of};
ghost use Rattle.ped_tree.specs.Views.{head_of};
ghost use Rattle.ped_tree.specs.Constants.ConstantExpressions.{constant_value};
ghost use Rattle.ped_affine.specs.Ranges as Spec;
ghost use Rattle.ped_affine.specs.PairViews.{heads_of};
ghost use Rattle.ped_affine.specs.Arguments.{setting_of};
ghost use Rattle.ped_affine.specs.Surroundings.{around_of};

use crate::bounds::{Enclosing, bound, interval_in};
use crate::settings::Setting;
use ped_refs::Loop;
use ped_tree::constants::{Consts, constant};
use ped_tree::{Do, Expr};
use ped_views::{Interval, LoopRange};

/// A range for a place in which none is found yet.
pub(crate) const NO_RANGE: LoopRange = LoopRange {
    lo: 0,
    hi: 0,
    step: 1,
    steady: false,
};

/// The range of the loop at a level of a nest, 1 for the outermost: the values that its index takes. It takes no
/// memory. At most six loops are in a nest.
pub fn range(setting: &Setting, nest: &[Loop], level: usize) -> LoopRange
    requires nest { length nest.now ≤ 6 }
    requires from { 0 < level }
    requires to { level ≤ length nest.now }
    ensures { slice_get (Spec.nest_ranges (setting_of setting.now) (heads_of (nest_of nest.now))) (level - 1) ≡ Some result }
{
    let mut ranges = [NO_RANGE; 6];
    find_ranges(setting, nest, &mut ranges);
    ranges[level - 1]
}

/// The values that an expression of bounds may have inside the loops of a nest, the outermost first; none where a part
/// of it leaves 2^62 or has no interval, as a quotient that isn't constant. It takes no memory. At most six loops are
/// in a nest.
pub fn interval(setting: &Setting, nest: &[Loop], e: &Expr) -> Option<Interval>
    requires { length nest.now ≤ 6 }
    ensures { result ≡ Spec.interval_of (setting_of setting.now) (Spec.around_with (setting_of setting.now) [] (heads_of (nest_of nest.now))) (expr_tree e.now) }
{
    let mut ranges = [NO_RANGE; 6];
    find_ranges(setting, nest, &mut ranges);
    let around = Enclosing {
        loops: nest,
        ranges: &ranges[..nest.len()],
    };
    interval_in(setting, &around, e)
}

/// Finds the ranges of the loops of a nest, the outermost first, and puts them at the front of the list.
pub(crate) fn find_ranges(setting: &Setting, nest: &[Loop], ranges: &mut [LoopRange])
    requires { length nest.now ≤ length ranges.old }
    ensures { take (length nest.now) ranges.new ≡ Spec.nest_ranges (setting_of setting.now) (heads_of (nest_of nest.now)) }
{
    for (i, l) in nest.iter().enumerate() {
        let around = Enclosing {
            loops: &nest[..i],
            ranges: &ranges[..i],
        };
        ranges[i] = loop_range(setting, &around, l.statement);
    }
}

/// The range of a loop inside those around it.
fn loop_range(setting: &Setting, around: &Enclosing, d: &Do) -> LoopRange
    requires { length around.now.ranges.now ≤ length around.now.loops.now }
    ensures { result ≡ Spec.loop_range (setting_of setting.now) (around_of around.now) (head_of d.now) }
{
    let first = bound(setting, around, &d.first);
    let last = bound(setting, around, &d.last);
    let step = increment(setting.constants, &d.step);
    let steady = is_steady(setting, &d.first);
    if step < 0 {
        LoopRange {
            lo: last.lo as i64,
            hi: first.hi as i64,
            step,
            steady,
        }
    } else {
        LoopRange {
            lo: first.lo as i64,
            hi: last.hi as i64,
            step,
            steady,
        }
    }
}

/// An increment by its value; 1 where it isn't constant, is 0 or is above 2147483647 in size.
fn increment(constants: &Consts, step: &Expr) -> i64
    ensures value { result ≡ Spec.step_by (constant_value constants.now (expr_tree step.now)) }
    ensures some { result ≢ pos 0 }
    ensures small { unsigned_abs result ≤ 2147483647 }
{
    match constant(step, constants) {
        Some(n) => {
            if n != 0 && n.unsigned_abs() <= 0x7fff_ffff {
                n as i64
            } else {
                1
            }
        }
        None => 1,
    }
}

/// Whether an initial value has one value for all entries of its loop: no element occurs in it, and no variable
/// that the outermost DO assigns.
#[cycle(steadiness)]
fn is_steady(setting: &Setting, e: &Expr) -> bool
    ensures { result ≡ Spec.is_steady (setting_of setting.now) (expr_tree e.now) }
{
    match e {
        Expr::Int(_) => true,
        Expr::Var(name) => !setting.assigned.contains(name),
        Expr::Element(_, _) => false,
        Expr::Neg(a) => is_steady(setting, a),
        Expr::Add(a, b) => is_steady(setting, a) && is_steady(setting, b),
        Expr::Sub(a, b) => is_steady(setting, a) && is_steady(setting, b),
        Expr::Mul(a, b) => is_steady(setting, a) && is_steady(setting, b),
        Expr::Div(a, b) => is_steady(setting, a) && is_steady(setting, b),
        Expr::Pow(a, b) => is_steady(setting, a) && is_steady(setting, b),
        Expr::Call(_, arguments) => are_steady(setting, arguments),
    }
}

/// Whether all arguments have one value for all entries.
#[cycle(steadiness)]
fn are_steady(setting: &Setting, arguments: &[Expr]) -> bool
    ensures { result ≡ Spec.are_steady (setting_of setting.now) (pack_exprs (map expr_tree arguments.now)) }
{
    for argument in arguments {
        if !is_steady(setting, argument) {
            return false;
        }
    }
    true
}
