//! The order of two values of one loop's index.

/// The direction of a dependence in one loop: how the index at the source compares with the index at the
/// sink in the order of iterations (Allen and Kennedy, direction vectors).
#[derive(Clone, Copy, PartialEq, Eq)]
pub enum Direction {
    /// `<`: the source's iteration comes first.
    Before,
    /// `=`: both are in one iteration.
    Same,
    /// `>`: the sink's iteration comes first.
    After,
}

impl Direction {
    ghost use Rattle.std.specs.Prelude.{◌≡◌};
    ghost use Rattle.ped_views.specs.Excluded as excluded;

    /// This direction of a loop's iterations as one of its index values: a negative step takes the greater
    /// value first.
    pub fn by_value(self, step: i64) -> Direction
        ensures { result ≡ excluded.by_value step self }
    {
        if step < 0 { self.turned() } else { self }
    }

    /// The direction seen from the sink.
    pub fn turned(self) -> Direction
        ensures { result ≡ excluded.turned self }
    {
        match self {
            Direction::Before => Direction::After,
            Direction::Same => Direction::Same,
            Direction::After => Direction::Before,
        }
    }
}
