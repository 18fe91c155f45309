//! What is remembered of the accesses of a cell.

ghost use Rattle.std.specs.Prelude.{◌≡◌, ◌≤◌, ◌||◌, Bool, Some, None, map, take, length, if◌then◌else◌};
ghost use Rattle.ped_laws.specs.ped_eval.specs.AccessViews.{turn_view};
ghost use Rattle.ped_order.specs.Keys.{iteration_of};
ghost use Rattle.ped_order.specs.Keys as Keys;
ghost use Rattle.ped_order.specs.Paths.{level_of, level_view};
ghost use Rattle.ped_order.specs.Sightings.{first_of};
ghost use Rattle.ped_order.specs.Sightings as Sightings;

use crate::paths::Path;
use crate::sightings::{Sighting, Summary, rival_among, with_touch};
use ped_eval::Turn;

/// What is remembered of the accesses of a cell. In the iterations of the path all of them are, so the earliest and the
/// earliest write are all that later accesses ask for there; a table tells the rest, by the iterations further in.
#[derive(Clone, Copy)]
pub(crate) struct Touched {
    /// The iterations that all accesses are in.
    pub path: Path,
    /// The earliest, and the earliest write.
    pub seen: Option<Summary>,
}

impl Touched {
    /// No access yet; the first will be in these turns.
    pub(crate) fn none(turns: &[Turn]) -> Touched
        ensures path { result.path ≡ map level_of (take 6 turns.now) }
        ensures seen { result.seen ≡ None }
    {
        Touched {
            path: Path::of(turns),
            seen: None,
        }
    }

    /// With one more access, which is in as many of the iterations.
    pub(crate) fn with(&self, common: usize, writes: bool, sighting: Sighting) -> Touched
        requires { common ≤ length self.now.path }
        ensures path { result.path ≡ take common self.now.path }
        ensures seen { (w : Bool) → Sightings.rival_among result.seen w ≡ first_of (Sightings.rival_among self.now.seen w) (if writes || w then Some sighting else None) }
    {
        Touched {
            path: self.path.front(common),
            seen: Some(with_touch(&self.seen, writes, sighting)),
        }
    }

    /// The earliest access that conflicts with a write, or with a read, in this turn, where the path tells.
    pub(crate) fn rival(&self, around: &[Turn], turn: &Turn, writes: bool) -> Option<Sighting>
        ensures { result ≡ (if Keys.is_elsewhere (map iteration_of (map turn_view around.now)) turn.now.statement turn.now.number (map level_view self.now.path) then Sightings.rival_among self.now.seen writes else None) }
    {
        if self.path.is_elsewhere(around, turn) {
            rival_among(&self.seen, writes)
        } else {
            None
        }
    }
}
