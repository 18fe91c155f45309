//! What the paths of a part of a program do to one scalar, and how this is put together from parts.

ghost use Rattle.std.specs.Prelude.{◌≡◌, ◌↔◌, ◌&&◌, ◌||◌, not, false, IsTrue};
ghost use Rattle.ped_flow.specs.Events as Event;
ghost use Rattle.ped_flow.specs.Summaries as Spec;

/// What the paths of a part of a program do to one scalar.
#[derive(Clone, Copy)]
pub(crate) struct Summary {
    /// The first statement in text order that reads it on some path before it is overwritten.
    pub(crate) first: Option<u32>,
    /// Whether some path that goes on doesn't overwrite it.
    pub(crate) keeps: bool,
    /// Whether some path that ends, at a STOP, doesn't overwrite it.
    pub(crate) ends: bool,
    /// Whether some path goes on.
    pub(crate) passes: bool,
    /// Whether some path that goes on overwrites it so that it has no value at the end.
    pub(crate) loses: bool,
}

impl Summary {
    /// A path on which nothing happens to the scalar.
    pub(crate) fn passing() -> Summary
        ensures { result ≡ Spec.passing }
    {
        Summary {
            first: None,
            keeps: true,
            ends: false,
            passes: true,
            loses: false,
        }
    }

    /// No path.
    pub(crate) fn unreached() -> Summary
        ensures { result ≡ Spec.unreached }
    {
        Summary {
            first: None,
            keeps: false,
            ends: false,
            passes: false,
            loses: false,
        }
    }

    /// The path of a STOP.
    pub(crate) fn stopped() -> Summary
        ensures { result ≡ Spec.stopped }
    {
        Summary {
            ends: true,
            ..Summary::unreached()
        }
    }

    /// The statement with this number reads the scalar.
    pub(crate) fn read_by(number: u32) -> Summary
        ensures { result ≡ Spec.of_manner Event.reads number }
    {
        Summary {
            first: Some(number),
            ..Summary::passing()
        }
    }

    /// The scalar is assigned.
    pub(crate) fn assigned() -> Summary
        ensures { result ≡ Spec.of_manner Event.assigns 0 }
    {
        Summary {
            keeps: false,
            ..Summary::passing()
        }
    }

    /// The scalar loses its value.
    pub(crate) fn cleared() -> Summary
        ensures { result ≡ Spec.of_manner Event.clears 0 }
    {
        Summary {
            keeps: false,
            loses: true,
            ..Summary::passing()
        }
    }

    /// Whether each path that goes on leaves the scalar with a value, though it had none.
    pub(crate) fn always_assigns(self) -> bool
        ensures { result ≡ (not self.keeps && not self.loses) }
    {
        !self.keeps && !self.loses
    }

    /// Whether some path leaves the scalar as it is.
    pub(crate) fn leaves(self) -> bool
        ensures { result ≡ (self.keeps || self.ends) }
    {
        self.keeps || self.ends
    }

    /// Whether no path goes on, so that what comes next can't be reached.
    pub(crate) fn is_cut(self) -> bool
        ensures { IsTrue result ↔ ((self.keeps ≡ false) × (self.passes ≡ false) × (self.loses ≡ false)) }
    {
        !self.keeps && !self.passes && !self.loses
    }

    /// This part and then another.
    pub(crate) fn then(self, next: Summary) -> Summary
        ensures { result ≡ Spec.summary_in_turn self next }
    {
        Summary {
            first: least(self.first, when(self.keeps, next.first)),
            keeps: self.keeps && next.keeps,
            ends: self.ends || (self.keeps && next.ends),
            passes: self.passes && next.passes,
            loses: (self.loses && next.keeps) || (self.passes && next.loses),
        }
    }

    /// Either this part or another.
    pub(crate) fn or(self, other: Summary) -> Summary
        ensures { result ≡ Spec.summary_either self other }
    {
        Summary {
            first: least(self.first, other.first),
            keeps: self.keeps || other.keeps,
            ends: self.ends || other.ends,
            passes: self.passes || other.passes,
            loses: self.loses || other.loses,
        }
    }

    /// Any number of trips through this part. None and one are enough to know all of them.
    pub(crate) fn repeated(self) -> Summary
        ensures { result ≡ Spec.summary_trips self }
    {
        Summary {
            keeps: true,
            passes: true,
            ..self
        }
    }
}

/// The lesser of two numbers, where they are there.
pub(crate) fn least(a: Option<u32>, b: Option<u32>) -> Option<u32>
    ensures { result ≡ Spec.least_of a b }
{
    match (a, b) {
        (Some(a), Some(b)) => Some(a.min(b)),
        (Some(a), None) => Some(a),
        (None, b) => b,
    }
}

/// A number where the test holds.
fn when(test: bool, number: Option<u32>) -> Option<u32>
    ensures { result ≡ Spec.when test number }
{
    if test {
        return number;
    }
    None
}
