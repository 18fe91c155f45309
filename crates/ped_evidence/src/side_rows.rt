//! The rows of the loops of one side: their ranges, their bounds and their steps.

ghost use Rattle.std.specs.Prelude.{◌≡◌, ◌≤◌, ◌+◌, ◌++◌, ◌^◌, map, filter, length, All, IfOk, OnOk};
ghost use Rattle.std.specs.List.{flat_map};
ghost use Rattle.ped_tree.specs.Views.{expr_tree};
ghost use Rattle.ped_refs.specs.Loops.{nest_of};
ghost use Rattle.ped_certificates.specs.Limits.{IsRow};
ghost use Rattle.ped_evidence.specs.Kept.{columns_of, form_of, layout_kept, level_of, levels_kept, trees_of, AreRows, IsForm, IsInside, IsLayout};
ghost use Rattle.ped_evidence.specs.Forms as Forms;
ghost use Rattle.ped_evidence.specs.Layouts as Layouts;
ghost use Rattle.ped_evidence.specs.Systems as Spec;

use crate::affine::is_constant;
use crate::forms::{Form, number};
use crate::layouts::{Layout, strides};
use crate::levels::Level;
use ped_base::{Listed, NoMemory};
use ped_certificates::Row;
use ped_tree::Expr;
use std::alloc::Global;

/// Adds the rows of the loops of a side, the outermost first. This many unknowns come before those of the side, and the
/// quotients of its loops count from this number.
pub fn add_side(
    alloc: Global,
    rows: &mut Listed<Row>,
    layout: &Layout,
    before: usize,
    first: usize,
    levels: &[Level],
) -> Result<(), NoMemory>
    requires layout { IsLayout layout.now }
    requires inside { All (IsInside layout.now.columns before) levels.now }
    requires quotients { first + length (filter (Layouts.has_own (layout_kept layout.now).setting layout.now.symbols.now) (levels_kept levels.now)) ≤ layout.now.columns.quotients }
    requires rows { AreRows layout.now.columns rows.old }
    ensures rows { OnOk result (rows.new ≡ rows.old ++ Spec.side_rows (layout_kept layout.now) before first (levels_kept levels.now)) }
    ensures fits { OnOk result (AreRows layout.now.columns rows.new) }
{
    let mut quotient = first;
    for level in levels {
        quotient = add_level(alloc, rows, layout, before, quotient, level)?;
    }
    Ok(())
}

/// Adds the rows of a loop, whose own quotient, where it has one, has this number; the number of the next quotient.
fn add_level(
    alloc: Global,
    rows: &mut Listed<Row>,
    layout: &Layout,
    before: usize,
    quotient: usize,
    level: &Level,
) -> Result<usize, NoMemory>
    requires layout { IsLayout layout.now }
    requires inside { IsInside layout.now.columns before level.now }
    requires quotient { Spec.counted (Layouts.has_own (layout_kept layout.now).setting layout.now.symbols.now (level_of level.now)) quotient ≤ layout.now.columns.quotients }
    requires rows { AreRows layout.now.columns rows.old }
    ensures rows { OnOk result (rows.new ≡ rows.old ++ Spec.level_rows (layout_kept layout.now) before quotient (level_of level.now)) }
    ensures fits { OnOk result (AreRows layout.now.columns rows.new) }
    ensures next { IfOk result (λ next. next ≡ Spec.counted (Layouts.has_own (layout_kept layout.now).setting layout.now.symbols.now (level_of level.now)) quotient) }
{
    add_range(alloc, rows, layout, before, level)?;
    add_lower(alloc, rows, layout, before, level)?;
    add_upper(alloc, rows, layout, before, level)?;
    add_own(alloc, rows, layout, before, quotient, level)
}

/// Adds that the variable of a loop lies in its range.
fn add_range(
    alloc: Global,
    rows: &mut Listed<Row>,
    layout: &Layout,
    before: usize,
    level: &Level,
) -> Result<(), NoMemory>
    requires layout { IsLayout layout.now }
    requires inside { IsInside layout.now.columns before level.now }
    requires rows { AreRows layout.now.columns rows.old }
    ensures rows { OnOk result (rows.new ≡ rows.old ++ Spec.range_rows (layout_kept layout.now) before (level_of level.now)) }
    ensures fits { OnOk result (AreRows layout.now.columns rows.new) }
{
    layout
        .columns
        .push(rows, least_row(alloc, layout, before, level)?)?;
    layout
        .columns
        .push(rows, greatest_row(alloc, layout, before, level)?)
}

/// That the variable of a loop is at least the lower end of its range.
fn least_row(alloc: Global, layout: &Layout, before: usize, level: &Level) -> Result<Row, NoMemory>
    requires layout { IsLayout layout.now }
    requires inside { IsInside layout.now.columns before level.now }
    ensures row { IfOk result (λ r. r ≡ Forms.at_most (Forms.number (Layouts.width (columns_of layout.now.columns)) (level_of level.now).range.lo)
        (Layouts.index (columns_of layout.now.columns) before (level_of level.now))) }
    ensures fits { IfOk result (IsRow (Layouts.width (columns_of layout.now.columns)) (2 ^ 64)) }
{
    let range = level.range;
    let x = layout.columns.index(alloc, before, level)?;
    let least = number(alloc, layout.columns.width(), i128::from(range.lo))?;
    layout.columns.at_most(alloc, &least, &x)
}

/// That the variable of a loop is at most the upper end of its range.
fn greatest_row(
    alloc: Global,
    layout: &Layout,
    before: usize,
    level: &Level,
) -> Result<Row, NoMemory>
    requires layout { IsLayout layout.now }
    requires inside { IsInside layout.now.columns before level.now }
    ensures row { IfOk result (λ r. r ≡ Forms.at_most (Layouts.index (columns_of layout.now.columns) before (level_of level.now))
        (Forms.number (Layouts.width (columns_of layout.now.columns)) (level_of level.now).range.hi)) }
    ensures fits { IfOk result (IsRow (Layouts.width (columns_of layout.now.columns)) (2 ^ 64)) }
{
    let range = level.range;
    let x = layout.columns.index(alloc, before, level)?;
    let greatest = number(alloc, layout.columns.width(), i128::from(range.hi))?;
    layout.columns.at_most(alloc, &x, &greatest)
}

/// Adds that the variable of a loop is at least each of its lower bounds.
fn add_lower(
    alloc: Global,
    rows: &mut Listed<Row>,
    layout: &Layout,
    before: usize,
    level: &Level,
) -> Result<(), NoMemory>
    requires layout { IsLayout layout.now }
    requires inside { IsInside layout.now.columns before level.now }
    requires rows { AreRows layout.now.columns rows.old }
    ensures rows { OnOk result (rows.new ≡ rows.old ++ Spec.lower_rows (layout_kept layout.now) before (level_of level.now)) }
    ensures fits { OnOk result (AreRows layout.now.columns rows.new) }
{
    let x = layout.columns.index(alloc, before, level)?;
    let bounds = level.lower_bounds(alloc)?;
    add_lower_bounds(alloc, rows, layout, before, level, &x, &bounds)
}

/// The same of these bounds.
fn add_lower_bounds(
    alloc: Global,
    rows: &mut Listed<Row>,
    layout: &Layout,
    before: usize,
    level: &Level,
    x: &Form,
    bounds: &[&Expr],
) -> Result<(), NoMemory>
    requires layout { IsLayout layout.now }
    requires inside { IsInside layout.now.columns before level.now }
    requires x { IsForm (Layouts.width (columns_of layout.now.columns)) (2 ^ 62) (2 ^ 62) x.now }
    requires rows { AreRows layout.now.columns rows.old }
    ensures rows { OnOk result (rows.new ≡ rows.old ++ map (λ f. Forms.at_most f (form_of x.now)) (Spec.bound_forms (layout_kept layout.now) before (level_of level.now) (trees_of bounds.now))) }
    ensures fits { OnOk result (AreRows layout.now.columns rows.new) }
{
    for bound in bounds {
        add_lower_bound(alloc, rows, layout, before, level, x, bound)?;
    }
    Ok(())
}

/// Adds that the variable of a loop is at least a bound, where that has a form that isn't constant.
fn add_lower_bound(
    alloc: Global,
    rows: &mut Listed<Row>,
    layout: &Layout,
    before: usize,
    level: &Level,
    x: &Form,
    bound: &Expr,
) -> Result<(), NoMemory>
    requires layout { IsLayout layout.now }
    requires inside { IsInside layout.now.columns before level.now }
    requires x { IsForm (Layouts.width (columns_of layout.now.columns)) (2 ^ 62) (2 ^ 62) x.now }
    requires rows { AreRows layout.now.columns rows.old }
    ensures rows { OnOk result (rows.new ≡ rows.old ++ map (λ f. Forms.at_most f (form_of x.now))
        (Spec.if_varying (Layouts.placed (layout_kept layout.now) before (nest_of level.now.around.now) (expr_tree bound.now)))) }
    ensures fits { OnOk result (AreRows layout.now.columns rows.new) }
{
    let form = layout.placed(alloc, before, level.around, bound)?;
    if let Some(f) = &form {
        if !is_constant(f) {
            layout
                .columns
                .push(rows, layout.columns.at_most(alloc, f, x)?)?;
        }
    }
    Ok(())
}

/// Adds that the variable of a loop is at most each of its upper bounds.
fn add_upper(
    alloc: Global,
    rows: &mut Listed<Row>,
    layout: &Layout,
    before: usize,
    level: &Level,
) -> Result<(), NoMemory>
    requires layout { IsLayout layout.now }
    requires inside { IsInside layout.now.columns before level.now }
    requires rows { AreRows layout.now.columns rows.old }
    ensures rows { OnOk result (rows.new ≡ rows.old ++ Spec.upper_rows (layout_kept layout.now) before (level_of level.now)) }
    ensures fits { OnOk result (AreRows layout.now.columns rows.new) }
{
    let x = layout.columns.index(alloc, before, level)?;
    let bounds = level.upper_bounds(alloc)?;
    add_upper_bounds(alloc, rows, layout, before, level, &x, &bounds)
}

/// The same of these bounds.
fn add_upper_bounds(
    alloc: Global,
    rows: &mut Listed<Row>,
    layout: &Layout,
    before: usize,
    level: &Level,
    x: &Form,
    bounds: &[&Expr],
) -> Result<(), NoMemory>
    requires layout { IsLayout layout.now }
    requires inside { IsInside layout.now.columns before level.now }
    requires x { IsForm (Layouts.width (columns_of layout.now.columns)) (2 ^ 62) (2 ^ 62) x.now }
    requires rows { AreRows layout.now.columns rows.old }
    ensures rows { OnOk result (rows.new ≡ rows.old ++ map (λ f. Forms.at_most (form_of x.now) f) (Spec.bound_forms (layout_kept layout.now) before (level_of level.now) (trees_of bounds.now))) }
    ensures fits { OnOk result (AreRows layout.now.columns rows.new) }
{
    for bound in bounds {
        add_upper_bound(alloc, rows, layout, before, level, x, bound)?;
    }
    Ok(())
}

/// Adds that the variable of a loop is at most a bound, where that has a form that isn't constant.
fn add_upper_bound(
    alloc: Global,
    rows: &mut Listed<Row>,
    layout: &Layout,
    before: usize,
    level: &Level,
    x: &Form,
    bound: &Expr,
) -> Result<(), NoMemory>
    requires layout { IsLayout layout.now }
    requires inside { IsInside layout.now.columns before level.now }
    requires x { IsForm (Layouts.width (columns_of layout.now.columns)) (2 ^ 62) (2 ^ 62) x.now }
    requires rows { AreRows layout.now.columns rows.old }
    ensures rows { OnOk result (rows.new ≡ rows.old ++ map (λ f. Forms.at_most (form_of x.now) f)
        (Spec.if_varying (Layouts.placed (layout_kept layout.now) before (nest_of level.now.around.now) (expr_tree bound.now)))) }
    ensures fits { OnOk result (AreRows layout.now.columns rows.new) }
{
    let form = layout.placed(alloc, before, level.around, bound)?;
    if let Some(f) = &form {
        if !is_constant(f) {
            layout
                .columns
                .push(rows, layout.columns.at_most(alloc, x, f)?)?;
        }
    }
    Ok(())
}

/// Adds that the variable of a loop is a whole number of steps from the initial value, where the loop has a quotient of
/// its own, which has this number then; the number of the next quotient.
fn add_own(
    alloc: Global,
    rows: &mut Listed<Row>,
    layout: &Layout,
    before: usize,
    quotient: usize,
    level: &Level,
) -> Result<usize, NoMemory>
    requires layout { IsLayout layout.now }
    requires inside { IsInside layout.now.columns before level.now }
    requires quotient { Spec.counted (Layouts.has_own (layout_kept layout.now).setting layout.now.symbols.now (level_of level.now)) quotient ≤ layout.now.columns.quotients }
    requires rows { AreRows layout.now.columns rows.old }
    ensures rows { OnOk result (rows.new ≡ rows.old ++ Spec.own_rows (layout_kept layout.now) before quotient (level_of level.now)) }
    ensures fits { OnOk result (AreRows layout.now.columns rows.new) }
    ensures next { IfOk result (λ next. next ≡ Spec.counted (Layouts.has_own (layout_kept layout.now).setting layout.now.symbols.now (level_of level.now)) quotient) }
{
    if !strides(level) {
        return Ok(quotient);
    }
    let first = layout.placed(alloc, before, level.around, &level.statement.first)?;
    let Some(first) = &first else {
        return Ok(quotient);
    };
    let x = layout.columns.index(alloc, before, level)?;
    let range = level.range;
    let steps = layout.columns.steps(alloc, quotient, range.step)?;
    layout
        .columns
        .push(rows, layout.columns.apart(alloc, &x, first, &steps)?)?;
    Ok(quotient + 1)
}
