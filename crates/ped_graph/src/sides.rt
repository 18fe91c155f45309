//! What is computed once per reference for all its pairs, and the views that it determines (Allen and Kennedy,
//! sections 3.1 and 3.2).

ghost use Rattle.std.specs.Prelude.{◌≡◌, ◌≤◌, ◌<◌, IsTrue, Some, take, drop, map, length, slice_get, IfOk};
ghost use Rattle.std.specs.List.{list_all};
ghost use Rattle.ped_tree.specs.Nests.{common_nest};
ghost use Rattle.ped_tree.specs.Views.{expr_tree};
ghost use Rattle.ped_refs.specs.Loops.{nest_of};
ghost use Rattle.ped_affine.specs.Arguments.{setting_of, site};
ghost use Rattle.ped_affine.specs.PairViews.{Site, view_at};
ghost use Rattle.ped_affine.specs.Ranges.{Setting as PlainSetting};
ghost use Rattle.ped_graph.specs.Sides as Spec;
ghost use Rattle.ped_graph.specs.Sides.{IsSide, IsLike, IsOwnRow, IsOwnPosition, AreOwnPositions};

use ped_affine::{Place, Setting, view};
use ped_base::NoMemory;
use ped_refs::{Loop, is_index};
use ped_tree::Expr;
use ped_views::{AffRow, LoopRange, PairView, Position};
use std::alloc::Global;

/// A reference as one side of its pairs.
#[derive(Drop)]
pub struct Side<'a> {
    /// The loops around it, the outermost first.
    pub nest: &'a [Loop<'a>],
    /// The view of the reference paired with itself: all its loops are common.
    pub own: PairView,
    /// Whether no subscript has a variable other than those of the loops, those that the outermost DO assigns, and named
    /// constants.
    pub alone: bool,
    /// Whether all subscripts are affine forms.
    pub usable: bool,
}

/// The side of the reference at a place. At most six loops enclose it.
pub fn side_at<'a>(
    alloc: Global,
    setting: &Setting,
    place: &Place<'a>,
) -> Result<Side<'a>, NoMemory>
    requires { length place.now.nest.now ≤ 6 }
    ensures { IfOk result (IsSide (setting_of setting.now) (site place.now)) }
{
    let same = *place;
    let own = view(alloc, setting, place, &same)?;
    let usable = are_usable(&own.positions);
    Ok(Side {
        nest: place.nest,
        own,
        alone: are_alone(setting, place.nest, place.subscripts),
        usable,
    })
}

/// Whether all subscripts are affine forms.
fn are_usable(positions: &[Position]) -> bool
    ensures { result ≡ list_all Spec.is_usable positions.now }
{
    positions.iter().all(|position| is_usable(position))
}

fn is_usable(position: &Position) -> bool
    ensures { result ≡ Spec.is_usable position.now }
{
    position.usable
}

/// Whether no subscript has a variable other than those of these loops, those that the outermost DO assigns, and named
/// constants.
fn are_alone(setting: &Setting, nest: &[Loop], subscripts: &[Expr]) -> bool
    ensures { result ≡ list_all (Spec.is_alone (setting_of setting.now) (nest_of nest.now)) (map expr_tree subscripts.now) }
{
    for e in subscripts {
        if !is_alone(setting, nest, e) {
            return false;
        }
    }
    true
}

/// Whether a subscript has no such variable.
#[cycle(others)]
fn is_alone(setting: &Setting, nest: &[Loop], e: &Expr) -> bool
    ensures { result ≡ Spec.is_alone (setting_of setting.now) (nest_of nest.now) (expr_tree e.now) }
{
    match e {
        Expr::Var(name) => is_index(name, nest)
            || setting.assigned.contains(name)
            || setting.constants.get(name).is_some(),
        Expr::Neg(a) => is_alone(setting, nest, a),
        Expr::Add(a, b) => is_alone(setting, nest, a) && is_alone(setting, nest, b),
        Expr::Sub(a, b) => is_alone(setting, nest, a) && is_alone(setting, nest, b),
        Expr::Mul(a, b) => is_alone(setting, nest, a) && is_alone(setting, nest, b),
        Expr::Int(_) | Expr::Element(_, _) | Expr::Div(_, _) | Expr::Pow(_, _) | Expr::Call(_, _) =>
            true,
    }
}

/// Whether these sides determine that a view is that of their pair; where they don't, the view may be that of the pair
/// all the same. It takes no memory.
pub fn tells_view(source: &Side, sink: &Side, view: &PairView) -> bool
    ensures { IsTrue result → (s : PlainSetting) (a b : Site) → IsSide s a source.now → IsSide s b sink.now → view.now ≡ view_at s a b }
{
    let common = common_depth(source.nest, sink.nest);
    is_like(common, source, sink, view)
}

/// Whether a view has the ranges and the positions of these sides, of which this many loops are common.
fn is_like(common: usize, source: &Side, sink: &Side, view: &PairView) -> bool
    ensures { IsTrue result → IsLike common source.now sink.now view.now }
{
    source.alone
        && sink.alone
        && are_split(&source.own.loops, common, &view.loops, &view.source_inner)
        && are_behind(&sink.own.loops, common, &view.sink_inner)
        && are_told(
            common,
            &source.own.positions,
            &sink.own.positions,
            &view.positions,
        )
}

/// How many loops at the front of two nests are common: those with one statement number.
pub(crate) fn common_depth(source: &[Loop], sink: &[Loop]) -> usize
    ensures { result ≡ length (common_nest (nest_of source.now) (nest_of sink.now)) }
{
    for (i, l) in source.iter().enumerate() {
        if i >= sink.len() || sink[i].number != l.number {
            return i;
        }
    }
    source.len()
}

/// Whether ranges are these up to a place and those from there on.
fn are_split(ranges: &[LoopRange], place: usize, before: &[LoopRange], behind: &[LoopRange]) -> bool
    ensures before { IsTrue result → before.now ≡ take place ranges.now }
    ensures behind { IsTrue result → behind.now ≡ drop place ranges.now }
{
    place <= ranges.len()
        && same_ranges(before, &ranges[..place])
        && same_ranges(behind, &ranges[place..])
}

/// Whether ranges are these from a place on.
fn are_behind(ranges: &[LoopRange], place: usize, behind: &[LoopRange]) -> bool
    ensures { IsTrue result → behind.now ≡ drop place ranges.now }
{
    place <= ranges.len() && same_ranges(behind, &ranges[place..])
}

fn same_ranges(left: &[LoopRange], right: &[LoopRange]) -> bool
    ensures { IsTrue result → left.now ≡ right.now }
{
    left == right
}

fn same_numbers(left: &[i64], right: &[i64]) -> bool
    ensures { IsTrue result → left.now ≡ right.now }
{
    left == right
}

/// Whether positions are those of two references, as many as both have, by the positions of each of them paired with
/// itself.
#[cycle(positions)]
fn are_told(common: usize, source: &[Position], sink: &[Position], positions: &[Position]) -> bool
    ensures { IsTrue result → AreOwnPositions common source.now sink.now positions.now }
{
    let Some((a, source)) = source.split_first() else {
        return positions.is_empty();
    };
    let Some((b, sink)) = sink.split_first() else {
        return positions.is_empty();
    };
    let Some((position, positions)) = positions.split_first() else {
        return false;
    };
    is_told(common, a, b, position) && are_told(common, source, sink, positions)
}

/// Whether a position is that of two subscripts, by the positions of each of them paired with itself.
fn is_told(common: usize, a: &Position, b: &Position, position: &Position) -> bool
    ensures { IsTrue result → IsOwnPosition common a.now b.now position.now }
{
    a.usable
        && b.usable
        && position.usable
        && is_row(common, &a.source, &position.source)
        && is_row(common, &b.source, &position.sink)
}

/// Whether a row is that of a subscript of which all loops are common, divided after this many of them.
fn is_row(common: usize, own: &AffRow, row: &AffRow) -> bool
    ensures { IsTrue result → IsOwnRow common own.now row.now }
{
    let coefficients = &own.common;
    common <= coefficients.len()
        && row.constant == own.constant
        && same_numbers(&row.common, &coefficients[..common])
        && same_numbers(&row.inner, &coefficients[common..])
}

/// The side at a place.
pub fn side_there<'a>(sides: &'a [Side<'a>], place: usize) -> &'a Side<'a>
    requires { place < length sides.now }
    ensures { slice_get sides.now place ≡ Some result.now }
{
    &sides[place]
}
