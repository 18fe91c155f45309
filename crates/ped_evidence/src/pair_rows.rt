//! The rows of a pair beside those of its sides: quotients for both sides, the pattern, the subscripts and the symbols.

ghost use Rattle.std.specs.Prelude.{◌≡◌, ◌<◌, ◌≤◌, ◌+◌, ◌++◌, ◌^◌, map, filter, length, All, IfOk, OnOk};
ghost use Rattle.ped_tree.specs.Views.{expr_tree};
ghost use Rattle.ped_affine.specs.Arguments.{site};
ghost use Rattle.ped_certificates.specs.Limits.{IsRow};
ghost use Rattle.ped_evidence.specs.Kept.{columns_of, form_of, layout_kept, level_of, levels_kept, AreRows, IsForm, IsInside, IsLayout};
ghost use Rattle.ped_evidence.specs.Layouts as Layouts;
ghost use Rattle.ped_evidence.specs.Systems as Spec;

use crate::forms::{Form, number};
use crate::layouts::{Columns, Layout, has_shared};
use crate::levels::Level;
use ped_affine::Place;
use ped_base::{Listed, Name, NoMemory};
use ped_certificates::{Row, Sign};
use ped_tree::Expr;
use std::alloc::Global;

/// The least number of 32 bits.
const LEAST: i128 = -0x8000_0000;

/// The greatest number of 32 bits.
const GREATEST: i128 = 0x7fff_ffff;

/// Adds that the variables of common loops are a whole number of steps apart, where a loop has a quotient for both
/// sides. These quotients count from this number.
pub fn add_shared(
    alloc: Global,
    rows: &mut Listed<Row>,
    layout: &Layout,
    first: usize,
    common: &[Level],
) -> Result<(), NoMemory>
    requires layout { IsLayout layout.now }
    requires source { All (IsInside layout.now.columns 0) common.now }
    requires sink { All (IsInside layout.now.columns layout.now.columns.source) common.now }
    requires quotients { first + length (filter (Layouts.has_shared (layout_kept layout.now).setting layout.now.symbols.now) (levels_kept common.now)) ≤ layout.now.columns.quotients }
    requires rows { AreRows layout.now.columns rows.old }
    ensures rows { OnOk result (rows.new ≡ rows.old ++ Spec.shared_rows (layout_kept layout.now) first (levels_kept common.now)) }
    ensures fits { OnOk result (AreRows layout.now.columns rows.new) }
{
    let mut quotient = first;
    for level in common {
        quotient = add_shared_one(alloc, rows, layout, quotient, level)?;
    }
    Ok(())
}

/// Adds that the variables of a common loop are a whole number of steps apart, where the loop has a quotient for both
/// sides, which has this number then; the number of the next quotient.
fn add_shared_one(
    alloc: Global,
    rows: &mut Listed<Row>,
    layout: &Layout,
    quotient: usize,
    level: &Level,
) -> Result<usize, NoMemory>
    requires layout { IsLayout layout.now }
    requires source { IsInside layout.now.columns 0 level.now }
    requires sink { IsInside layout.now.columns layout.now.columns.source level.now }
    requires quotient { Spec.counted (Layouts.has_shared (layout_kept layout.now).setting layout.now.symbols.now (level_of level.now)) quotient ≤ layout.now.columns.quotients }
    requires rows { AreRows layout.now.columns rows.old }
    ensures rows { OnOk result (rows.new ≡ rows.old ++ Spec.shared_rows_of (layout_kept layout.now) quotient (level_of level.now)) }
    ensures fits { OnOk result (AreRows layout.now.columns rows.new) }
    ensures next { IfOk result (λ next. next ≡ Spec.counted (Layouts.has_shared (layout_kept layout.now).setting layout.now.symbols.now (level_of level.now)) quotient) }
{
    if !has_shared(alloc, &layout.setting, layout.symbols, level)? {
        return Ok(quotient);
    }
    layout
        .columns
        .push(rows, shared_row(alloc, &layout.columns, quotient, level)?)?;
    Ok(quotient + 1)
}

/// That the variable of a loop at the sink is a whole number of steps from that at the source.
fn shared_row(
    alloc: Global,
    columns: &Columns,
    quotient: usize,
    level: &Level,
) -> Result<Row, NoMemory>
    requires few { Layouts.width (columns_of columns.now) < 2 ^ 64 }
    requires source { IsInside columns.now 0 level.now }
    requires sink { IsInside columns.now columns.now.source level.now }
    requires quotient { quotient < columns.now.quotients }
    ensures row { IfOk result (λ r. r ≡ Spec.shared_row (columns_of columns.now) quotient (level_of level.now)) }
    ensures fits { IfOk result (IsRow (Layouts.width (columns_of columns.now)) (2 ^ 64)) }
{
    let at_source = columns.index(alloc, 0, level)?;
    let at_sink = columns.index(alloc, columns.source, level)?;
    let range = level.range;
    let steps = columns.steps(alloc, quotient, range.step)?;
    columns.apart(alloc, &at_sink, &at_source, &steps)
}

/// Adds what a pattern says of the common loops.
pub fn add_signs(
    alloc: Global,
    rows: &mut Listed<Row>,
    columns: &Columns,
    common: &[Level],
    pattern: &[Sign],
) -> Result<(), NoMemory>
    requires few { Layouts.width (columns_of columns.now) < 2 ^ 64 }
    requires source { All (IsInside columns.now 0) common.now }
    requires sink { All (IsInside columns.now columns.now.source) common.now }
    requires rows { AreRows columns.now rows.old }
    ensures rows { OnOk result (rows.new ≡ rows.old ++ Spec.sign_rows (columns_of columns.now) (levels_kept common.now) pattern.now) }
    ensures fits { OnOk result (AreRows columns.now rows.new) }
{
    for i in 0..common.len().min(pattern.len()) {
        add_sign(alloc, rows, columns, &common[i], pattern[i])?;
    }
    Ok(())
}

/// Adds what a sign says of a common loop.
fn add_sign(
    alloc: Global,
    rows: &mut Listed<Row>,
    columns: &Columns,
    level: &Level,
    sign: Sign,
) -> Result<(), NoMemory>
    requires few { Layouts.width (columns_of columns.now) < 2 ^ 64 }
    requires source { IsInside columns.now 0 level.now }
    requires sink { IsInside columns.now columns.now.source level.now }
    requires rows { AreRows columns.now rows.old }
    ensures rows { OnOk result (rows.new ≡ rows.old ++ Spec.sign_row (columns_of columns.now) (level_of level.now) sign) }
    ensures fits { OnOk result (AreRows columns.now rows.new) }
{
    if sign == Sign::Any {
        return Ok(());
    }
    let at_source = columns.index(alloc, 0, level)?;
    let at_sink = columns.index(alloc, columns.source, level)?;
    match sign {
        Sign::Before => columns.push(rows, earlier(alloc, columns, level, &at_source, &at_sink)?),
        Sign::Same => columns.push(rows, columns.equal(alloc, &at_sink, &at_source)?),
        Sign::After => columns.push(rows, earlier(alloc, columns, level, &at_sink, &at_source)?),
        Sign::Any => Ok(()),
    }
}

/// That the first of two values of a loop's variable is of an earlier iteration.
fn earlier(
    alloc: Global,
    columns: &Columns,
    level: &Level,
    a: &Form,
    b: &Form,
) -> Result<Row, NoMemory>
    requires few { Layouts.width (columns_of columns.now) < 2 ^ 64 }
    requires first { IsForm (Layouts.width (columns_of columns.now)) (2 ^ 62) (2 ^ 62) a.now }
    requires second { IsForm (Layouts.width (columns_of columns.now)) (2 ^ 62) (2 ^ 62) b.now }
    ensures row { IfOk result (λ r. r ≡ Spec.earlier (Layouts.width (columns_of columns.now)) (level_of level.now) (form_of a.now) (form_of b.now)) }
    ensures fits { IfOk result (IsRow (Layouts.width (columns_of columns.now)) (2 ^ 64)) }
{
    if level.falls() {
        columns.below(alloc, b, a)
    } else {
        columns.below(alloc, a, b)
    }
}

/// Adds that the subscripts of both references are equal, position by position.
pub fn add_positions(
    alloc: Global,
    rows: &mut Listed<Row>,
    layout: &Layout,
    source: &Place,
    sink: &Place,
) -> Result<(), NoMemory>
    requires layout { IsLayout layout.now }
    requires source { length source.now.nest.now ≡ layout.now.columns.source }
    requires sink { length sink.now.nest.now ≡ layout.now.columns.sink }
    requires rows { AreRows layout.now.columns rows.old }
    ensures rows { OnOk result (rows.new ≡ rows.old ++ Spec.position_rows (layout_kept layout.now) (site source.now) (site sink.now)
        (map expr_tree source.now.subscripts.now) (map expr_tree sink.now.subscripts.now)) }
    ensures fits { OnOk result (AreRows layout.now.columns rows.new) }
{
    let left = source.subscripts;
    let right = sink.subscripts;
    for i in 0..left.len().min(right.len()) {
        add_position(alloc, rows, layout, source, sink, &left[i], &right[i])?;
    }
    Ok(())
}

/// Adds that two subscripts are equal, where both have a form.
fn add_position(
    alloc: Global,
    rows: &mut Listed<Row>,
    layout: &Layout,
    source: &Place,
    sink: &Place,
    e: &Expr,
    g: &Expr,
) -> Result<(), NoMemory>
    requires layout { IsLayout layout.now }
    requires source { length source.now.nest.now ≡ layout.now.columns.source }
    requires sink { length sink.now.nest.now ≡ layout.now.columns.sink }
    requires rows { AreRows layout.now.columns rows.old }
    ensures rows { OnOk result (rows.new ≡ rows.old ++ Spec.equal_rows
        (Layouts.placed (layout_kept layout.now) 0 (site source.now).nest (expr_tree e.now))
        (Layouts.placed (layout_kept layout.now) layout.now.columns.source (site sink.now).nest (expr_tree g.now))) }
    ensures fits { OnOk result (AreRows layout.now.columns rows.new) }
{
    let a = layout.placed(alloc, 0, source.nest, e)?;
    let Some(a) = &a else {
        return Ok(());
    };
    let b = layout.placed(alloc, layout.columns.source, sink.nest, g)?;
    let Some(b) = &b else {
        return Ok(());
    };
    layout
        .columns
        .push(rows, layout.columns.equal(alloc, a, b)?)
}

/// Adds that symbols hold numbers of 32 bits, unless they are the variable of a DO.
pub fn add_symbols(alloc: Global, rows: &mut Listed<Row>, layout: &Layout) -> Result<(), NoMemory>
    requires layout { IsLayout layout.now }
    requires rows { AreRows layout.now.columns rows.old }
    ensures rows { OnOk result (rows.new ≡ rows.old ++ Spec.symbol_rows (layout_kept layout.now) 0 layout.now.symbols.now) }
    ensures fits { OnOk result (AreRows layout.now.columns rows.new) }
{
    for (k, name) in layout.symbols.iter().enumerate() {
        add_symbol(alloc, rows, layout, k, name)?;
    }
    Ok(())
}

/// Adds that a symbol holds a number of 32 bits, unless it is the variable of a DO.
fn add_symbol(
    alloc: Global,
    rows: &mut Listed<Row>,
    layout: &Layout,
    k: usize,
    name: &Name,
) -> Result<(), NoMemory>
    requires layout { IsLayout layout.now }
    requires within { k < layout.now.columns.symbols }
    requires rows { AreRows layout.now.columns rows.old }
    ensures rows { OnOk result (rows.new ≡ rows.old ++ Spec.symbol_row (layout_kept layout.now) k name.now) }
    ensures fits { OnOk result (AreRows layout.now.columns rows.new) }
{
    if layout.setting.loop_variables.contains(name) {
        return Ok(());
    }
    let width = layout.columns.width();
    let x = layout.columns.symbol(alloc, k)?;
    let least = number(alloc, width, LEAST)?;
    layout
        .columns
        .push(rows, layout.columns.at_most(alloc, &least, &x)?)?;
    let greatest = number(alloc, width, GREATEST)?;
    layout
        .columns
        .push(rows, layout.columns.at_most(alloc, &x, &greatest)?)
}
