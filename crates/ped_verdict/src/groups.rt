//! The groups of a view: the positions that are strong SIV in one loop, which are tested together.

ghost use Rattle.std.specs.Prelude.{◌≡◌, IfOk};
ghost use Rattle.ped_views.specs.Excluded.{group_of};

use crate::distances::strong_coefficient;
use ped_base::NoMemory;
use ped_siv::StrongRow;
use ped_views::Position;
use std::alloc::Global;

/// The rows of the positions that are usable and strong SIV in the loop at this place.
pub(crate) fn group(
    alloc: Global,
    positions: &[Position],
    place: usize,
) -> Result<Vec<StrongRow>, NoMemory>
    ensures { IfOk result (λ rows. rows.items ≡ group_of place positions.now) }
{
    let mut rows = Vec::new(alloc);
    for position in positions {
        if let Some(a) = strong_coefficient(position, place) {
            rows.push(row_of(position, a))?;
        }
    }
    Ok(rows)
}

/// The row of a position with this coefficient on both sides.
fn row_of(position: &Position, a: i64) -> StrongRow
    ensures { result ≡ record { a = a; c1 = position.now.source.constant; c2 = position.now.sink.constant } }
{
    StrongRow {
        a,
        c1: position.source.constant,
        c2: position.sink.constant,
    }
}
