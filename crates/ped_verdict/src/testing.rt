//! The only call that tests a pair of references, and its result.

ghost use Rattle.std.specs.Prelude.{◌≡◌, ◌+◌, ◌-◌, ◌≤◌, ◌↔◌, length, IfOk, IsTrue};
ghost use Rattle.ped_views.specs.Vectors as Spec;
ghost use Rattle.ped_verdict.specs.Dependence.{MayDepend, HasList};
ghost use Rattle.ped_verdict.specs.Exactness as exactness;

use crate::listing::{has_list, listed};
use crate::places::place_of;
use crate::refining::possible_vectors;
use crate::steps::Steps;
use crate::vectors::Vector;
use crate::{distances, exactness};
use ped_base::NoMemory;
use ped_bits::Row;
use ped_views::{Direction, PairView};
use std::alloc::Global;
use std::marker::{Model, PhantomData};
use std::sync::ledger::Ledger;

/// What the tests say of a pair of references: the direction vectors that no position or group of its view excludes.
/// The view determines them, so contracts see a verdict as its view. Only `test` makes a verdict, it can't be
/// copied, and its type names the ledger of the counter that it was made with.
#[derive(Drop)]
pub struct Verdict<L: Ledger> {
    view: PairView,
    possible: Row,
    ledger: PhantomData<L>,
}

impl<L: Ledger> Model for Verdict<L> {
    ghost use Rattle.ped_views.specs.Views.{View};

    ghost Value = { View };

    ghost use Rattle.ped_verdict.specs.Marked.{AreMarked};

    ghost view = { λ v. v.view };

    ghost invariant = { λ v. AreMarked v.view v.possible };
}

/// Tests a pair of references with this view. Each call counts one test, also where memory is refused.
pub fn test<L: Ledger>(
    alloc: Global,
    view: PairView,
    steps: &mut Steps<L>,
) -> Result<Verdict<L>, NoMemory>
    ensures tested { IfOk result (λ v. v ≡ view) }
    ensures tick { steps.new ≡ steps.old + 1 }
{
    steps.tick();
    let possible = possible_vectors(alloc, &view)?;
    Ok(Verdict {
        view,
        possible,
        ledger: PhantomData,
    })
}

impl<L: Ledger> Verdict<L> {
    /// The view that was tested.
    pub fn view(&self) -> &PairView
        ensures { result.now ≡ self.now }
    {
        &self.view
    }

    /// Whether no position and no group excludes a vector, which has one direction for each common loop.
    pub fn holds(&self, vector: &[Direction]) -> bool
        requires { length vector.now ≡ length self.now.loops }
        ensures { IsTrue result ↔ Spec.IsPossible self.now vector.now }
    {
        self.possible.get(place_of(vector))
    }

    /// Whether any vector is left: where none is, there is no dependence.
    pub fn has_vectors(&self) -> bool
        ensures { IsTrue result ↔ MayDepend self.now }
    {
        self.possible.meets(&self.possible)
    }

    /// All vectors that no position and no group excludes, in the lexicographic order `<`, `=`, `>`.
    pub fn vectors(&self, alloc: Global) -> Result<Vec<Vector>, NoMemory>
        ensures { IfOk result (λ vectors. Spec.AreVectors self.now vectors.items) }
    {
        listed(alloc, &self.view, &self.possible)
    }

    /// There is a list of all vectors that no position and no group excludes. It does nothing.
    pub fn has_list(&self)
        ensures few { length self.now.loops ≤ 6 }
        ensures list { HasList self.now }
    {
        has_list(&self.view, &self.possible)
    }

    /// The distance in iterations of the common loop at this level, where the outermost is 1: by the first position
    /// that is strong SIV in it; none where that isn't whole, and where there is no such position.
    pub fn distance(&self, level: usize) -> Option<i128>
        requires outermost { 1 ≤ level }
        requires innermost { level ≤ length self.now.loops }
        ensures { result ≡ Spec.distance self.now (level - 1) }
    {
        distances::distance(&self.view, level - 1)
    }

    /// Whether each position is usable and ZIV or strong SIV.
    pub fn is_exact(&self) -> bool
        ensures { result ≡ exactness.is_exact self.now }
    {
        exactness::is_exact(&self.view)
    }
}
