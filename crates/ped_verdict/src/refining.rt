//! The possible vectors of a view: all but those that its positions exclude (Allen and Kennedy, section 3.3.3).

ghost use Rattle.std.specs.Prelude.{length, IfOk};
ghost use Rattle.ped_views.specs.Excluded.{Excludes};
ghost use Rattle.ped_verdict.specs.Marked.{AreMarked, AreExcluded};

use crate::exclusion::exclude_by;
use crate::fronts::mark_front;
use crate::places::vector_count;
use crate::vectors::Vector;
use crate::walks::exclude_others;
use ped_base::NoMemory;
use ped_bits::Row;
use ped_views::PairView;
use std::alloc::Global;

/// The places of the possible vectors of a view.
pub(crate) fn possible_vectors(alloc: Global, view: &PairView) -> Result<Row, NoMemory>
    ensures { IfOk result (λ row. AreMarked view.now row) }
{
    let loops = view.loops.len();
    let mut possible = Row::new(alloc, vector_count(loops))?;
    mark_front(loops, &Vector::empty(), &mut possible);
    let excluded = excluded_vectors(alloc, view)?;
    excluded.and_not_into(&mut possible);
    Ok(possible)
}

/// The places of the vectors of a view that some position or group excludes.
fn excluded_vectors(alloc: Global, view: &PairView) -> Result<Row, NoMemory>
    ensures { IfOk result (λ row. AreExcluded view.now (Excludes view.now) (length view.now.positions) row) }
{
    let mut excluded = Row::new(alloc, vector_count(view.loops.len()))?;
    let mut sights = Vec::new(alloc);
    for position in 0..view.positions.len() {
        exclude_by(alloc, view, position, &mut excluded, &mut sights)?;
    }
    exclude_others(view, &sights, &mut excluded);
    Ok(excluded)
}
