//! Arrows between numbers, either of which may be missing.

ghost use Rattle.std.specs.Prelude.{◌≡◌, ◌↔◌, ◌⊎◌, ◌<◌, ℕ, Some, IfSome, OnOk, length};
ghost use Rattle.ped_links.specs.ArrowViews.{ends_of};
ghost use Rattle.ped_links.specs.Reaching.{Leads};

use crate::reaching::Arrows;
use ped_base::NoMemory;

/// Adds an arrow, where both its ends are there.
pub fn add_arrow(
    arrows: &mut Arrows,
    from: Option<usize>,
    to: Option<usize>,
) -> Result<(), NoMemory>
    requires from { IfSome from (λ n. n < length (ends_of arrows.old)) }
    requires to { IfSome to (λ n. n < length (ends_of arrows.old)) }
    ensures wide { length (ends_of arrows.new) ≡ length (ends_of arrows.old) }
    ensures added { OnOk result ((i j : ℕ) → Leads (ends_of arrows.new) i j ↔ (Leads (ends_of arrows.old) i j ⊎ ((from ≡ Some i) × (to ≡ Some j)))) }
{
    let Some(from) = from else {
        return Ok(());
    };
    let Some(to) = to else {
        return Ok(());
    };
    arrows.add(from, to)
}
