//! Tests that prove a dependence.

ghost use Rattle.std.specs.Prelude.{◌≡◌};
ghost use Rattle.std.specs.List.{list_all};
ghost use Rattle.ped_graph.specs.Marks as Spec;

use ped_verdict::is_exact;
use ped_views::{LoopRange, PairView};

/// Whether the tests of a view prove a dependence that they leave.
pub fn is_telling(view: &PairView) -> bool
    ensures { result ≡ Spec.is_telling view.now }
{
    all_run_twice(view) && is_exact(view)
}

/// Whether all loops of a view run at least twice.
fn all_run_twice(view: &PairView) -> bool
    ensures { result ≡ Spec.all_run_twice view.now }
{
    each_runs_twice(&view.loops)
        && each_runs_twice(&view.source_inner)
        && each_runs_twice(&view.sink_inner)
}

fn each_runs_twice(ranges: &[LoopRange]) -> bool
    ensures { result ≡ list_all Spec.runs_twice ranges.now }
{
    for range in ranges {
        if !runs_twice(range) {
            return false;
        }
    }
    true
}

/// Whether the second index value of a loop lies in its range.
fn runs_twice(range: &LoopRange) -> bool
    ensures { result ≡ Spec.runs_twice range.now }
{
    range.lo + range.step.abs() <= range.hi
}
