//! The values that the bounds of a loop may have, by interval arithmetic (this project).

ghost use Rattle.std.specs.Prelude.{◌≡◌, ◌≤◌, ◌^◌, map, length, IfSome, Some, None};
ghost use Rattle.std.specs.Option.{ForSome};
ghost use Rattle.std.specs.Map.{lookup};
ghost use Rattle.ped_base.specs.Lists.{is_same_text};
ghost use Rattle.ped_views.specs.Intervals.{IsWithin};
ghost use Rattle.ped_tree.specs.Tree.{Var};
ghost use Rattle.ped_tree.specs.Views.{expr_tree, pack_exprs};
ghost use Rattle.ped_tree.specs.declared.expressions.Intrinsic.TheVariants as Function;
ghost use Rattle.ped_base.specs.Arithmetic.Arithmetic.{sum_of, difference_of, negation_of, product_of};
ghost use Rattle.ped_tree.specs.Constants.ConstantExpressions.{unary_value, binary_value, constant_value};
ghost use Rattle.ped_affine.specs.IntervalArithmetic.{interval_sum, interval_difference, interval_negation, interval_product};
ghost use Rattle.ped_affine.specs.Ranges as Spec;
ghost use Rattle.ped_affine.specs.Ranges.{constant_or, of_one, of_two, variable_interval, call_interval, interval_of, intervals_of, bound_interval};
ghost use Rattle.ped_affine.specs.Arguments.{setting_of};
ghost use Rattle.ped_affine.specs.Surroundings.{around_of};

use crate::folding::{
    constant_difference, constant_negation, constant_product, constant_sum, named_value,
};
use crate::intervals::{differences, greater, kept_point, lesser, negations, products, sums};
use crate::names::is_same;
use crate::settings::Setting;
use ped_base::Name;
use ped_refs::Loop;
use ped_tree::constants::constant;
use ped_tree::{Expr, Intrinsic};
use ped_views::{Interval, LoopRange};

/// The loops around a bound, the outermost first, with their ranges.
#[derive(Clone, Copy)]
pub(crate) struct Enclosing<'a> {
    /// The loops.
    pub loops: &'a [Loop<'a>],
    /// Their ranges.
    pub ranges: &'a [LoopRange],
}

/// What is known of a bound or of a part of it.
#[derive(Clone, Copy)]
struct Part {
    /// Its value, where it is constant.
    constant: Option<i128>,
    /// The values that it may have, where no part of it leaves 2^62.
    interval: Option<Interval>,
}

/// The values that a variable or an element may hold (ANSI X3.9-1978, section 4.3; this project).
const ANY_VALUE: Interval = Interval {
    lo: -0x8000_0000,
    hi: 0x7fff_ffff,
};

/// All that a bound may be.
const ALL: Interval = Interval {
    lo: -0x4000_0000_0000_0000,
    hi: 0x4000_0000_0000_0000,
};

/// The values that a bound may have; where a part of it leaves 2^62, all within 2^62 of zero.
pub(crate) fn bound(setting: &Setting, around: &Enclosing, e: &Expr) -> Interval
    requires { length around.now.ranges.now ≤ length around.now.loops.now }
    ensures value { result ≡ bound_interval (setting_of setting.now) (around_of around.now) (expr_tree e.now) }
    ensures near { IsWithin (2 ^ 62) result }
{
    match interval_in(setting, around, e) {
        Some(r) => r,
        None => ALL,
    }
}

/// The values that an expression of bounds may have; none where a part of it leaves 2^62, or has no interval.
pub(crate) fn interval_in(setting: &Setting, around: &Enclosing, e: &Expr) -> Option<Interval>
    requires { length around.now.ranges.now ≤ length around.now.loops.now }
    ensures value { result ≡ interval_of (setting_of setting.now) (around_of around.now) (expr_tree e.now) }
    ensures near { IfSome result (IsWithin (2 ^ 62)) }
{
    part_of(setting, around, e).interval
}

/// What is known of a bound or of a part of it.
#[cycle(parts)]
fn part_of(setting: &Setting, around: &Enclosing, e: &Expr) -> Part
    requires { length around.now.ranges.now ≤ length around.now.loops.now }
    ensures constant { result.constant ≡ constant_value (setting_of setting.now).constants (expr_tree e.now) }
    ensures interval { result.interval ≡ interval_of (setting_of setting.now) (around_of around.now) (expr_tree e.now) }
    ensures near { IfSome result.interval (IsWithin (2 ^ 62)) }
{
    match e {
        Expr::Int(value) => constant_part(i128::from(*value)),
        Expr::Var(name) => variable_part(setting, around, name),
        Expr::Element(_, _) => Part {
            constant: None,
            interval: Some(ANY_VALUE),
        },
        Expr::Neg(a) => negation_part(part_of(setting, around, a)),
        Expr::Add(a, b) => sum_part(part_of(setting, around, a), part_of(setting, around, b)),
        Expr::Sub(a, b) => {
            difference_part(part_of(setting, around, a), part_of(setting, around, b))
        }
        Expr::Mul(a, b) => product_part(part_of(setting, around, a), part_of(setting, around, b)),
        Expr::Div(_, _) | Expr::Pow(_, _) => value_part(constant(e, setting.constants), None),
        Expr::Call(Intrinsic::Mod, _) | Expr::Call(Intrinsic::Abs, _) => {
            value_part(constant(e, setting.constants), None)
        }
        Expr::Call(Intrinsic::Max, arguments) => value_part(
            constant(e, setting.constants),
            greatest_of_all(setting, around, arguments),
        ),
        Expr::Call(Intrinsic::Min, arguments) => value_part(
            constant(e, setting.constants),
            least_of_all(setting, around, arguments),
        ),
    }
}

/// A part with this value, or else with this interval.
fn value_part(value: Option<i128>, interval: Option<Interval>) -> Part
    requires { ForSome interval (IsWithin (2 ^ 62)) }
    ensures constant { result.constant ≡ value }
    ensures interval { result.interval ≡ constant_or value interval }
    ensures near { IfSome result.interval (IsWithin (2 ^ 62)) }
{
    match value {
        Some(value) => constant_part(value),
        None => Part {
            constant: None,
            interval,
        },
    }
}

/// A constant part.
fn constant_part(value: i128) -> Part
    ensures constant { result.constant ≡ Some value }
    ensures interval { result.interval ≡ constant_or (Some value) None }
    ensures near { IfSome result.interval (IsWithin (2 ^ 62)) }
{
    Part {
        constant: Some(value),
        interval: kept_point(value),
    }
}

/// A variable: a named constant, or with the values that it may have.
fn variable_part(setting: &Setting, around: &Enclosing, name: &Name) -> Part
    requires { length around.now.ranges.now ≤ length around.now.loops.now }
    ensures constant { result.constant ≡ constant_value (setting_of setting.now).constants (Var name.now) }
    ensures interval { result.interval ≡ interval_of (setting_of setting.now) (around_of around.now) (Var name.now) }
    ensures near { IfSome result.interval (IsWithin (2 ^ 62)) }
{
    match named_value(setting.constants, name) {
        Some(value) => constant_part(i128::from(value)),
        None => Part {
            constant: None,
            interval: variable_values(setting, around, name),
        },
    }
}

/// The values that a variable may have: those between the ends of its loop's range, or any that a variable may
/// hold; those of the variable of another DO aren't known.
fn variable_values(setting: &Setting, around: &Enclosing, name: &Name) -> Option<Interval>
    requires { length around.now.ranges.now ≤ length around.now.loops.now }
    ensures value { result ≡ variable_interval (setting_of setting.now) (around_of around.now) name.now }
    ensures near { IfSome result (IsWithin (2 ^ 62)) }
{
    match index_values(around, name) {
        Some(values) => Some(values),
        None => {
            if setting.loop_variables.contains(name) {
                None
            } else {
                Some(ANY_VALUE)
            }
        }
    }
}

/// The values between the ends of the range of the loop with this variable, where there is one.
fn index_values(around: &Enclosing, name: &Name) -> Option<Interval>
    requires { length around.now.ranges.now ≤ length around.now.loops.now }
    ensures value { result ≡ lookup (is_same_text name.now) (around_of around.now) }
    ensures near { IfSome result (IsWithin (2 ^ 62)) }
{
    for (i, range) in around.ranges.iter().enumerate() {
        let d = around.loops[i].statement;
        if is_same(name, &d.variable) {
            return Some(between_ends(range));
        }
    }
    None
}

/// The values between the ends of a range, which may be empty.
fn between_ends(range: &LoopRange) -> Interval
    ensures value { result ≡ Spec.between_ends range.now }
    ensures near { IsWithin (2 ^ 62) result }
{
    Interval::between(i128::from(range.lo), i128::from(range.hi))
}

/// A negation.
fn negation_part(a: Part) -> Part
    requires { ForSome a.interval (IsWithin (2 ^ 62)) }
    ensures constant { result.constant ≡ unary_value negation_of a.constant }
    ensures interval { result.interval ≡ constant_or (unary_value negation_of a.constant) (of_one interval_negation a.interval) }
    ensures near { IfSome result.interval (IsWithin (2 ^ 62)) }
{
    value_part(constant_negation(a.constant), negations(a.interval))
}

/// A sum.
fn sum_part(a: Part, b: Part) -> Part
    requires first { ForSome a.interval (IsWithin (2 ^ 62)) }
    requires second { ForSome b.interval (IsWithin (2 ^ 62)) }
    ensures constant { result.constant ≡ binary_value sum_of a.constant b.constant }
    ensures interval { result.interval ≡ constant_or (binary_value sum_of a.constant b.constant) (of_two interval_sum a.interval b.interval) }
    ensures near { IfSome result.interval (IsWithin (2 ^ 62)) }
{
    value_part(
        constant_sum(a.constant, b.constant),
        sums(a.interval, b.interval),
    )
}

/// A difference.
fn difference_part(a: Part, b: Part) -> Part
    requires first { ForSome a.interval (IsWithin (2 ^ 62)) }
    requires second { ForSome b.interval (IsWithin (2 ^ 62)) }
    ensures constant { result.constant ≡ binary_value difference_of a.constant b.constant }
    ensures interval { result.interval ≡ constant_or (binary_value difference_of a.constant b.constant) (of_two interval_difference a.interval b.interval) }
    ensures near { IfSome result.interval (IsWithin (2 ^ 62)) }
{
    value_part(
        constant_difference(a.constant, b.constant),
        differences(a.interval, b.interval),
    )
}

/// A product.
fn product_part(a: Part, b: Part) -> Part
    requires first { ForSome a.interval (IsWithin (2 ^ 62)) }
    requires second { ForSome b.interval (IsWithin (2 ^ 62)) }
    ensures constant { result.constant ≡ binary_value product_of a.constant b.constant }
    ensures interval { result.interval ≡ constant_or (binary_value product_of a.constant b.constant) (of_two interval_product a.interval b.interval) }
    ensures near { IfSome result.interval (IsWithin (2 ^ 62)) }
{
    value_part(
        constant_product(a.constant, b.constant),
        products(a.interval, b.interval),
    )
}

/// The greatest of arguments.
#[cycle(parts)]
fn greatest_of_all(setting: &Setting, around: &Enclosing, arguments: &[Expr]) -> Option<Interval>
    requires { length around.now.ranges.now ≤ length around.now.loops.now }
    ensures value { result ≡ call_interval Function.Max (intervals_of (setting_of setting.now) (around_of around.now) (pack_exprs (map expr_tree arguments.now))) }
    ensures near { IfSome result (IsWithin (2 ^ 62)) }
{
    if arguments.is_empty() {
        return None;
    }
    let mut values = part_of(setting, around, &arguments[0]).interval?;
    for argument in &arguments[1..] {
        values = greater(values, part_of(setting, around, argument).interval?);
    }
    Some(values)
}

/// The least of arguments.
#[cycle(parts)]
fn least_of_all(setting: &Setting, around: &Enclosing, arguments: &[Expr]) -> Option<Interval>
    requires { length around.now.ranges.now ≤ length around.now.loops.now }
    ensures value { result ≡ call_interval Function.Min (intervals_of (setting_of setting.now) (around_of around.now) (pack_exprs (map expr_tree arguments.now))) }
    ensures near { IfSome result (IsWithin (2 ^ 62)) }
{
    if arguments.is_empty() {
        return None;
    }
    let mut values = part_of(setting, around, &arguments[0]).interval?;
    for argument in &arguments[1..] {
        values = lesser(values, part_of(setting, around, argument).interval?);
    }
    Some(values)
}
