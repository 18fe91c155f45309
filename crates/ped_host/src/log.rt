//! A list of calls that only clauses read.

ghost use Rattle.std.specs.Prelude.{◌≡◌, List, [], ◌∷◌};
ghost use Rattle.std.specs.Borrow.{ftrue};
ghost use Rattle.ped_host.specs.Events.{Event};

use std::marker::{Model, PhantomData};

/// What the outside was asked and what it answered, the newest first. It takes no memory. The proofs of its two
/// functions are written by hand, and nothing in them keeps another one from writing anything into a log: so both
/// functions are of this crate alone, and no other proof by hand may be about a log.
#[derive(Drop)]
pub struct Log {
    marker: PhantomData<u8>,
    pub ghost events: { List Event },
}

impl Model for Log {
    ghost also_owns = { λ _. ftrue };
}

impl Log {
    /// A log of nothing.
    pub(crate) fn new() -> Log
        ensures { result.events ≡ [] }
    {
        Log {
            marker: PhantomData,
        }
    }

    /// Notes a call: a name, numbers, and the bytes that were given or taken.
    pub(crate) fn note(&mut self, _name: &[u8], _numbers: &[u64], _bytes: &[u8])
        ensures { self.new.events ≡ (_name.now, (_numbers.now, _bytes.now)) ∷ self.old.events }
    {}
}
