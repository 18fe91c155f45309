//! Views of pairs of references (Allen and Kennedy, sections 3.1 and 3.2).

ghost use Rattle.std.specs.Prelude.{◌≡◌, ◌≤◌, All, map, take, drop, length, IfOk};
ghost use Rattle.ped_views.specs.Limits.{FitsLoops};
ghost use Rattle.ped_tree.specs.Nests.{common_nest};
ghost use Rattle.ped_tree.specs.Views.{expr_tree};
ghost use Rattle.ped_refs.specs.Loops.{nest_of};
ghost use Rattle.ped_affine.specs.Ranges.{nest_ranges};
ghost use Rattle.ped_affine.specs.PairViews.{heads_of, positions_of, view_at};
ghost use Rattle.ped_affine.specs.Arguments.{setting_of, site};
ghost use Rattle.ped_affine.specs.Pairs.{IsPair};

use crate::positions::{Depths, Pair, position};
use crate::ranges::{NO_RANGE, find_ranges};
use crate::settings::{Place, Setting};
use ped_base::NoMemory;
use ped_refs::Loop;
use ped_views::{LoopRange, PairView, Position};
use std::alloc::Global;

/// The view of the ordered pair of the references at two places of one program: the ranges of the loops around
/// them, and their subscripts as affine forms, position by position. At most six loops are around each.
pub fn view(
    alloc: Global,
    setting: &Setting,
    source: &Place,
    sink: &Place,
) -> Result<PairView, NoMemory>
    requires source { length source.now.nest.now ≤ 6 }
    requires sink { length sink.now.nest.now ≤ 6 }
    ensures { IfOk result (λ v. v ≡ view_at (setting_of setting.now) (site source.now) (site sink.now)) }
{
    let common = common_depth(source.nest, sink.nest);
    let mut ranges = [NO_RANGE; 6];
    find_ranges(setting, source.nest, &mut ranges);
    let loops = part(alloc, &ranges, 0, common)?;
    let source_inner = part(alloc, &ranges, common, source.nest.len())?;
    let sink_inner = further_ranges(alloc, setting, sink.nest, common)?;
    let pair = Pair {
        setting: *setting,
        source: *source,
        sink: *sink,
        depths: Depths {
            common,
            source: source.nest.len() - common,
            sink: sink.nest.len() - common,
        },
    };
    let positions = positions(alloc, &pair)?;
    Ok(PairView {
        loops,
        source_inner,
        sink_inner,
        positions,
    })
}

/// How many loops at the front of two nests are common: those with one statement number.
fn common_depth(source: &[Loop], sink: &[Loop]) -> usize
    ensures common { result ≡ length (common_nest (nest_of source.now) (nest_of sink.now)) }
    ensures source { result ≤ length source.now }
    ensures sink { result ≤ length sink.now }
{
    for (i, l) in source.iter().enumerate() {
        if i >= sink.len() || sink[i].number != l.number {
            return i;
        }
    }
    source.len()
}

/// The ranges of the loops of a nest after its common loops.
fn further_ranges(
    alloc: Global,
    setting: &Setting,
    nest: &[Loop],
    common: usize,
) -> Result<Vec<LoopRange>, NoMemory>
    requires few { length nest.now ≤ 6 }
    requires common { common ≤ length nest.now }
    ensures { IfOk result (λ ranges. ranges.items ≡ drop common (nest_ranges (setting_of setting.now) (heads_of (nest_of nest.now)))) }
{
    if common == nest.len() {
        return Ok(Vec::new(alloc));
    }
    let mut ranges = [NO_RANGE; 6];
    find_ranges(setting, nest, &mut ranges);
    part(alloc, &ranges, common, nest.len())
}

/// The ranges from one place on, up to another one.
fn part(
    alloc: Global,
    ranges: &[LoopRange],
    from: usize,
    to: usize,
) -> Result<Vec<LoopRange>, NoMemory>
    requires from { from ≤ to }
    requires to { to ≤ length ranges.now }
    ensures { IfOk result (λ found. found.items ≡ drop from (take to ranges.now)) }
{
    Ok(ranges[from..to].to_vec(alloc)?)
}

/// The positions of a pair, as many as both references have.
fn positions(alloc: Global, pair: &Pair) -> Result<Vec<Position>, NoMemory>
    requires { IsPair pair.now }
    ensures value { IfOk result (λ found. found.items ≡ positions_of (setting_of pair.now.setting) (site pair.now.source) (site pair.now.sink)
        (map expr_tree pair.now.source.subscripts.now) (map expr_tree pair.now.sink.subscripts.now)) }
    ensures fits { IfOk result (λ found. All (FitsLoops pair.now.depths.common pair.now.depths.source pair.now.depths.sink) found.items) }
{
    let left = pair.source.subscripts;
    let right = pair.sink.subscripts;
    let count = left.len().min(right.len());
    let mut found = Vec::with_capacity(alloc, count)?;
    for i in 0..count {
        found.push(position(alloc, pair, &left[i], &right[i])?)?;
    }
    Ok(found)
}
