//! Testing pairs of references.

ghost use Rattle.std.specs.Prelude.{◌≡◌, ◌+◌, ◌≤◌, Some, map, length, IfOk, OnOk};

use crate::parts::Slot;
use ped_base::NoMemory;
use ped_verdict::{Steps, test};
use ped_views::PairView;
use std::alloc::Global;
use std::sync::ledger::Ledger;

/// The verdicts of pairs with these views, each of which is tested once.
pub fn test_all<L: Ledger>(
    alloc: Global,
    views: Vec<PairView>,
    steps: &mut Steps<L>,
) -> Result<Vec<Slot<L>>, NoMemory>
    ensures verdicts { IfOk result (λ slots. slots.items ≡ map Some views.items) }
    ensures ticks { OnOk result (steps.new ≡ steps.old + length views.items) }
    ensures least { steps.old ≤ steps.new }
    ensures most { steps.new ≤ steps.old + length views.items }
{
    let mut slots = Vec::with_capacity(alloc, views.len())?;
    for view in views {
        let slot = tested(alloc, view, steps)?;
        slots.push(slot)?;
    }
    Ok(slots)
}

/// The verdict of a pair with this view, which is tested.
pub fn tested<L: Ledger>(
    alloc: Global,
    view: PairView,
    steps: &mut Steps<L>,
) -> Result<Slot<L>, NoMemory>
    ensures verdict { IfOk result (λ slot. slot ≡ Some view) }
    ensures tick { steps.new ≡ steps.old + 1 }
{
    let verdict = test(alloc, view, steps)?;
    Slot::full(alloc, verdict)
}
