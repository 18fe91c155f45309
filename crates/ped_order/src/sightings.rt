//! What is remembered of the accesses at a key.

ghost use Rattle.std.specs.Prelude.{◌≡◌, ◌==◌, ◌||◌, ◌&&◌, not, ℕ, Bool, Some, None, if◌then◌else◌};
ghost use Rattle.ped_order.specs.Sightings as Spec;

/// An access that has been reported.
#[derive(Clone, Copy)]
pub(crate) struct Sighting {
    /// How many accesses have been reported before it.
    pub before: u64,
    /// Its statement.
    pub statement: u32,
}

/// The earliest of some accesses at a key, and the earliest of another iteration than that one's.
#[derive(Clone, Copy)]
pub(crate) struct Earliest {
    /// The earliest.
    first: Sighting,
    /// The number of its iteration.
    number: u64,
    /// The earliest of another iteration.
    other: Option<Sighting>,
}

/// What is remembered of the accesses at a key. These give all that later accesses ask for: the earliest in another
/// iteration than their own is one of two.
#[derive(Clone, Copy)]
pub(crate) struct Entry {
    /// Of reads and writes.
    all: Earliest,
    /// Of writes.
    writes: Option<Earliest>,
}

impl Earliest {
    /// The earliest access in another iteration than that with this number.
    fn elsewhere(&self, number: u64) -> Option<Sighting>
        ensures { result ≡ Spec.earliest_elsewhere (Some self.now) number }
    {
        if self.number == number {
            self.other
        } else {
            Some(self.first)
        }
    }
}

/// The earliest of some accesses in the same iterations, and the earliest write among them.
#[derive(Clone, Copy)]
pub(crate) struct Summary {
    /// The earliest.
    pub first: Sighting,
    /// The earliest write.
    pub write: Option<Sighting>,
}

/// The earliest access that conflicts with a write, or with a read.
pub(crate) fn rival_among(seen: &Option<Summary>, writes: bool) -> Option<Sighting>
    ensures { result ≡ Spec.rival_among seen.now writes }
{
    match seen {
        None => return None,
        Some(summary) => {
            if writes {
                return Some(summary.first);
            }
            return summary.write;
        }
    }
}

/// With one more access, in the same iterations.
pub(crate) fn with_touch(seen: &Option<Summary>, writes: bool, sighting: Sighting) -> Summary
    ensures { (w : Bool) → Spec.rival_among (Some result) w ≡ Spec.first_of (Spec.rival_among seen.now w) (if writes || w then Some sighting else None) }
{
    match seen {
        None => Summary {
            first: sighting,
            write: if writes { Some(sighting) } else { None },
        },
        Some(summary) => Summary {
            first: summary.first,
            write: if writes && summary.write.is_none() {
                Some(sighting)
            } else {
                summary.write
            },
        },
    }
}

/// With one more access, in the iteration with this number.
fn with_sighting(earliest: &Option<Earliest>, number: u64, sighting: Sighting) -> Earliest
    ensures { (n : ℕ) → Spec.earliest_elsewhere (Some result) n ≡ Spec.first_of (Spec.earliest_elsewhere earliest.now n) (if number == n then None else Some sighting) }
{
    match earliest {
        None => Earliest {
            first: sighting,
            number,
            other: None,
        },
        Some(earliest) => {
            if earliest.other.is_none() && earliest.number != number {
                Earliest {
                    first: earliest.first,
                    number: earliest.number,
                    other: Some(sighting),
                }
            } else {
                *earliest
            }
        }
    }
}

/// With one more access, in the iteration with this number.
pub(crate) fn with_access(
    entry: &Option<Entry>,
    number: u64,
    writes: bool,
    sighting: Sighting,
) -> Entry
    ensures { (n : ℕ) (w : Bool) → Spec.rival_in (Some result) n w ≡ Spec.first_of (Spec.rival_in entry.now n w) (if (not (number == n)) && (writes || w) then Some sighting else None) }
{
    let all = match entry {
        None => None,
        Some(entry) => Some(entry.all),
    };
    let written = match entry {
        None => None,
        Some(entry) => entry.writes,
    };
    Entry {
        all: with_sighting(&all, number, sighting),
        writes: if writes {
            Some(with_sighting(&written, number, sighting))
        } else {
            written
        },
    }
}

/// The earliest access that conflicts with a write, or with a read, in the iteration with this number.
pub(crate) fn rival_in(entry: &Option<Entry>, number: u64, writes: bool) -> Option<Sighting>
    ensures { result ≡ Spec.rival_in entry.now number writes }
{
    match entry {
        None => return None,
        Some(entry) => {
            if writes {
                return entry.all.elsewhere(number);
            }
            match &entry.writes {
                None => return None,
                Some(earliest) => return earliest.elsewhere(number),
            }
        }
    }
}

/// The earlier of two accesses.
pub(crate) fn earlier_of(a: Option<Sighting>, b: Option<Sighting>) -> Option<Sighting>
    ensures { result ≡ Spec.earlier_of a b }
{
    match a {
        None => return b,
        Some(first) => match b {
            None => return a,
            Some(second) => {
                if second.before < first.before {
                    return b;
                }
                return a;
            }
        },
    }
}
