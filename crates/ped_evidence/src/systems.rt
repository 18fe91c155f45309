//! The system of an ordered pair of references and a pattern.

ghost use Rattle.std.specs.Prelude.{◌≡◌, ◌<◌, ◌≤◌, ◌^◌, take, length, IfOk};
ghost use Rattle.ped_certificates.specs.Limits.{IsSystem};
ghost use Rattle.ped_tree.specs.Nests.{common_nest};
ghost use Rattle.ped_refs.specs.Loops.{nest_of};
ghost use Rattle.ped_affine.specs.Arguments.{setting_of, site};
ghost use Rattle.ped_evidence.specs.Kept.{columns_of, layout_kept, levels_kept, AreQuotients, AreRows, IsLayout, IsPair};
ghost use Rattle.ped_evidence.specs.Layouts as Layouts;
ghost use Rattle.ped_evidence.specs.Systems as Spec;
ghost use Rattle.ped_evidence.specs.Symbols.{symbols_of};

use crate::layouts::{Columns, Layout, count_own, count_shared};
use crate::levels::{Level, levels, ranges};
use crate::pair_rows::{add_positions, add_shared, add_signs, add_symbols};
use crate::side_rows::add_side;
use crate::symbols::{Pair, symbols};
use ped_affine::{Place, Setting};
use ped_base::{Listed, Name, NoMemory};
use ped_certificates::{Row, Sign, System};
use ped_refs::Loop;
use ped_tree::names::NameSet;
use std::alloc::Global;

/// How many quotients a system has.
#[derive(Clone, Copy)]
struct Quotients {
    /// Of the loops round the source by themselves.
    source: usize,
    /// Of the loops round the sink by themselves.
    sink: usize,
    /// Of common loops for both sides.
    shared: usize,
}

/// The system of a pair, with its symbols.
#[derive(Drop)]
pub struct Described {
    /// The system.
    pub system: System,
    /// The symbols.
    pub symbols: NameSet,
}

/// The system of the ordered pair of the references at two places of one program, and of a pattern of their directions.
/// At most six loops are round each. The only error is running out of memory.
pub fn describe(
    alloc: Global,
    setting: &Setting,
    source: &Place,
    sink: &Place,
    pattern: &[Sign],
) -> Result<Described, NoMemory>
    requires source { length source.now.nest.now ≤ 6 }
    requires sink { length sink.now.nest.now ≤ 6 }
    ensures system { IfOk result (λ found. found.system ≡ Spec.system_at (setting_of setting.now) (site source.now) (site sink.now) pattern.now) }
    ensures symbols { IfOk result (λ found. found.symbols ≡ symbols_of (setting_of setting.now) (site source.now) (site sink.now)) }
    ensures fits { IfOk result (λ found. IsSystem found.system) }
{
    let source_ranges = ranges(alloc, setting, source.nest)?;
    let source_levels = levels(alloc, source.nest, &source_ranges)?;
    let sink_ranges = ranges(alloc, setting, sink.nest)?;
    let sink_levels = levels(alloc, sink.nest, &sink_ranges)?;
    let pair = Pair {
        setting: *setting,
        source: *source,
        sink: *sink,
        source_levels: &source_levels,
        sink_levels: &sink_levels,
    };
    described_with(alloc, &pair, pattern)
}

/// The same of a pair with its loops.
fn described_with(alloc: Global, pair: &Pair, pattern: &[Sign]) -> Result<Described, NoMemory>
    requires { IsPair pair.now }
    ensures system { IfOk result (λ found. found.system ≡ Spec.system_at (setting_of pair.now.setting) (site pair.now.source) (site pair.now.sink) pattern.now) }
    ensures symbols { IfOk result (λ found. found.symbols ≡ symbols_of (setting_of pair.now.setting) (site pair.now.source) (site pair.now.sink)) }
    ensures fits { IfOk result (λ found. IsSystem found.system) }
{
    let names = symbols(alloc, pair)?;
    let system = system_with(alloc, pair, names.as_slice(), pattern)?;
    Ok(Described {
        system,
        symbols: names,
    })
}

/// The system of a pair with these symbols.
fn system_with(
    alloc: Global,
    pair: &Pair,
    symbols: &[Name],
    pattern: &[Sign],
) -> Result<System, NoMemory>
    requires pair { IsPair pair.now }
    requires symbols { symbols.now ≡ symbols_of (setting_of pair.now.setting) (site pair.now.source) (site pair.now.sink) }
    ensures system { IfOk result (λ found. found ≡ Spec.system_at (setting_of pair.now.setting) (site pair.now.source) (site pair.now.sink) pattern.now) }
    ensures fits { IfOk result IsSystem }
{
    let common = common_levels(pair);
    let quotients = count_quotients(alloc, pair, symbols, common)?;
    let layout = layout_with(pair, symbols, &quotients)?;
    let rows = all_rows(alloc, pair, &layout, &quotients, common, pattern)?;
    Ok(System {
        unknowns: layout.columns.width(),
        rows,
    })
}

/// The common loops of a pair.
fn common_levels<'a>(pair: &Pair<'a>) -> &'a [Level<'a>]
    requires { IsPair pair.now }
    ensures { levels_kept result.now ≡ Layouts.common_levels (setting_of pair.now.setting) (site pair.now.source) (site pair.now.sink) }
{
    front(
        pair.source_levels,
        common_depth(pair.source.nest, pair.sink.nest),
    )
}

/// The first of these loops.
fn front<'a>(levels: &'a [Level<'a>], count: usize) -> &'a [Level<'a>]
    requires { count ≤ length levels.now }
    ensures { levels_kept result.now ≡ take count (levels_kept levels.now) }
{
    &levels[..count]
}

/// How many quotients the loops of a pair have, whose common loops and symbols these are.
fn count_quotients(
    alloc: Global,
    pair: &Pair,
    symbols: &[Name],
    common: &[Level],
) -> Result<Quotients, NoMemory>
    requires pair { IsPair pair.now }
    requires common { levels_kept common.now ≡ Layouts.common_levels (setting_of pair.now.setting) (site pair.now.source) (site pair.now.sink) }
    ensures { IfOk result (AreQuotients pair.now symbols.now) }
{
    let source = count_own(alloc, &pair.setting, symbols, pair.source_levels)?;
    let sink = count_own(alloc, &pair.setting, symbols, pair.sink_levels)?;
    let shared = count_shared(alloc, &pair.setting, symbols, common)?;
    Ok(Quotients {
        source,
        sink,
        shared,
    })
}

/// The layout of a pair with these symbols and quotients.
fn layout_with<'a>(
    pair: &Pair<'a>,
    symbols: &'a [Name],
    quotients: &Quotients,
) -> Result<Layout<'a>, NoMemory>
    requires pair { IsPair pair.now }
    requires symbols { symbols.now ≡ symbols_of (setting_of pair.now.setting) (site pair.now.source) (site pair.now.sink) }
    requires quotients { AreQuotients pair.now symbols.now quotients.now }
    ensures layout { IfOk result (λ y. layout_kept y ≡ Layouts.layout_of (setting_of pair.now.setting) (site pair.now.source) (site pair.now.sink)) }
    ensures few { IfOk result IsLayout }
{
    let all = quotients.source + quotients.sink + quotients.shared;
    let columns = columns(pair, symbols, all)?;
    Ok(Layout {
        setting: pair.setting,
        symbols,
        columns,
    })
}

/// How many unknowns a system has, with this many quotients. So many that their number can't be told would take all
/// memory.
fn columns(pair: &Pair, symbols: &[Name], quotients: usize) -> Result<Columns, NoMemory>
    requires source { length pair.now.source.nest.now ≤ 6 }
    requires sink { length pair.now.sink.nest.now ≤ 6 }
    requires quotients { quotients ≤ 18 }
    ensures columns { IfOk result (λ c. columns_of c ≡ record { source = length pair.now.source.nest.now; sink = length pair.now.sink.nest.now; quotients = quotients; symbols = length symbols.now }) }
    ensures few { IfOk result (λ c. Layouts.width (columns_of c) < 2 ^ 64) }
{
    let source = pair.source.nest.len();
    let sink = pair.sink.nest.len();
    let others = source + sink + quotients;
    if others.checked_add(symbols.len()).is_none() {
        return Err(NoMemory);
    }
    Ok(Columns {
        source,
        sink,
        quotients,
        symbols: symbols.len(),
    })
}

/// The rows of a pair with this layout, these quotients and these common loops.
fn all_rows(
    alloc: Global,
    pair: &Pair,
    layout: &Layout,
    quotients: &Quotients,
    common: &[Level],
    pattern: &[Sign],
) -> Result<Listed<Row>, NoMemory>
    requires pair { IsPair pair.now }
    requires layout { layout_kept layout.now ≡ Layouts.layout_of (setting_of pair.now.setting) (site pair.now.source) (site pair.now.sink) }
    requires few { IsLayout layout.now }
    requires quotients { AreQuotients pair.now layout.now.symbols.now quotients.now }
    requires common { levels_kept common.now ≡ Layouts.common_levels (setting_of pair.now.setting) (site pair.now.source) (site pair.now.sink) }
    ensures rows { IfOk result (λ rows. rows ≡ Spec.rows_in (layout_kept layout.now) (site pair.now.source) (site pair.now.sink) pattern.now) }
    ensures fits { IfOk result (AreRows layout.now.columns) }
{
    let mut rows = Listed::new(alloc);
    add_side(alloc, &mut rows, layout, 0, 0, pair.source_levels)?;
    let before = layout.columns.source;
    add_side(
        alloc,
        &mut rows,
        layout,
        before,
        quotients.source,
        pair.sink_levels,
    )?;
    add_shared(
        alloc,
        &mut rows,
        layout,
        quotients.source + quotients.sink,
        common,
    )?;
    add_signs(alloc, &mut rows, &layout.columns, common, pattern)?;
    add_positions(alloc, &mut rows, layout, &pair.source, &pair.sink)?;
    add_symbols(alloc, &mut rows, layout)?;
    Ok(rows)
}

/// How many loops at the front of two nests are common: those with one statement number.
pub fn common_depth(source: &[Loop], sink: &[Loop]) -> usize
    ensures common { result ≡ length (common_nest (nest_of source.now) (nest_of sink.now)) }
    ensures source { result ≤ length source.now }
    ensures sink { result ≤ length sink.now }
{
    for (i, l) in source.iter().enumerate() {
        if i >= sink.len() || sink[i].number != l.number {
            return i;
        }
    }
    source.len()
}
