//! Watches: they receive the accesses of a run.

ghost use Rattle.std.specs.Prelude.{◌≡◌, Bool, true, OnOk};
ghost use Rattle.ped_store.specs.Races as Races;
ghost use Rattle.ped_eval.specs.AccessViews.{access_view};

use crate::accesses::Access;
use ped_base::NoMemory;

/// What gets each access of a run, in order (this project).
pub trait Watch {
    /// What the watch may be after an access, by what it was before.
    ghost follows: { Self → Races.Access → Self → Type 0 };

    /// No access changes the watch.
    ghost is_idle: { Self → Bool };

    /// Whether no access changes the watch, so that it needs none.
    fn keeps_nothing(&self) -> bool
        ensures { result ≡ is_idle self.now };

    /// Takes note of an access.
    ///
    /// # Errors
    ///
    /// Want of memory, which breaks off the run.
    fn access(&mut self, access: &Access) -> Result<(), NoMemory>
        ensures { OnOk result (follows self.old (access_view access.now) self.new) };

    /// An idle watch may stay as it is.
    ghost idles: { (w : Self) (a : Races.Access) → is_idle w ≡ true → follows w a w };
}

/// A watch that keeps nothing.
#[derive(Drop)]
pub struct NoWatch;

impl Watch for NoWatch {
    ghost use Rattle.std.specs.Prelude.{refl};

    ghost follows = { λ old _ new. new ≡ old };

    ghost is_idle = { λ _. true };

    ghost idles = { λ w a _. refl };

    fn keeps_nothing(&self) -> bool {
        true
    }

    fn access(&mut self, _: &Access) -> Result<(), NoMemory> {
        Ok(())
    }
}
