//! What an iteration of a PARALLEL DO is to the loop.

ghost use Rattle.std.specs.Prelude.{◌≡◌, ◌<◌, ◌+◌, ◌^◌, [], ◌∷◌, length, Bool, true, IfOk, OnErr};
ghost use Rattle.std.specs.List.{list_all};
ghost use Rattle.ped_tree.specs.Views.{head_of, stmt_trees, do_tree};
ghost use Rattle.ped_symbols.specs.Kinds.{Table};
ghost use Rattle.ped_store.specs.Cells.{Cell};
ghost use Rattle.ped_store.specs.Keeping.{memory_of};
ghost use Rattle.ped_interleavings.specs.ped_eval.specs.Agreement.{DoCopiesStand};
ghost use Rattle.ped_interleavings.specs.ped_eval.specs.Scopes.{Scope};
ghost use Rattle.ped_interleavings.specs.ped_eval.specs.Loops.{frame};
ghost use Rattle.ped_interleavings.specs.ped_eval.specs.Plans.{entered_by, IsPlan};
ghost use Rattle.ped_interleavings.specs.ped_eval.specs.Readiness.{setting_by, CanDo, IsReady};
ghost use Rattle.ped_interleavings.specs.Lefts.{Left, finished, is_finished, body_left};
ghost use Rattle.ped_interleavings.specs.Steps as Steps;
ghost use Rattle.ped_machine.specs.Bases.{is_own, IsNear, HasKept, HasSameBut};
ghost use Rattle.ped_machine.specs.Naming.{HasForgottenSpent};
ghost use Rattle.ped_machine.specs.Doing.{IsDone, IfOpen, IfSafe, HasRoom};

use crate::steps::Done;
use ped_base::{Name, NoMemory};
use ped_eval::{Plan, State};
use ped_store::Store;
use ped_symbols::Symbols;
use ped_tree::Do;
use std::alloc::Global;

/// An iteration of a PARALLEL DO that has been started.
pub trait Work<'a>: Drop {
    /// What it has left.
    ghost left: { Self → Left };

    /// All that it has left can be done, where these cells exist.
    ghost sound: { Self → Table → (Cell → Bool) → Type 0 };

    /// The iterations that it is in from its beginning to its end: itself and those around the loop.
    ghost base: { Self → Scope };

    /// Starts the iteration that this many others precede.
    ///
    /// # Errors
    ///
    /// Out of memory.
    fn start(
        alloc: Global,
        state: &mut State,
        d: &'a Do,
        plan: &Plan,
        earlier: u64,
    ) -> Result<Self, NoMemory>
        requires plan { IsPlan (head_of d.now) (stmt_trees d.now.body.items) plan.now }
        requires earlier { earlier < plan.now.count }
        requires few { length state.old.scope < 6 }
        requires number { plan.now.number + 1 < 2 ^ 32 }
        ensures left { IfOk result (λ w. left w ≡ body_left (entered_by (head_of d.now) plan.now plan.now.behind) (stmt_trees d.now.body.items) plan.now.number state.old.scope (earlier + 1) finished) }
        ensures sound { IfOk result (λ w. (table : Table) → CanDo table state.old.scope plan.now.number (do_tree d.now) → DoCopiesStand state.old.scope (memory_of state.old.store).stands → sound w table (memory_of state.new.store).stands) }
        ensures inside { IfOk result (λ w. base w ≡ frame (entered_by (head_of d.now) plan.now plan.now.behind) (earlier + 1) ∷ state.old.scope) }
        ensures room { HasRoom (memory_of state.old.store) (memory_of state.new.store) }
        ensures scope { state.new.scope ≡ state.old.scope };

    /// Whether nothing is left of it.
    fn is_over(&mut self) -> bool
        ensures over { result ≡ is_finished (left self.old) }
        ensures left { left self.new ≡ left self.old }
        ensures inside { base self.new ≡ base self.old }
        ensures sound { (table : Table) (stands : Cell → Bool) → sound self.old table stands → sound self.new table stands };

    /// Does the next step, with a choice.
    ///
    /// # Errors
    ///
    /// Out of memory. Then the rest is the same.
    fn step(
        &mut self,
        alloc: Global,
        symbols: &Symbols,
        state: &mut State,
        choice: u64,
    ) -> Result<Done, NoMemory>
        requires ready { IsReady symbols.now [] (memory_of state.old.store) }
        requires sound { sound self.old symbols.now (memory_of state.old.store).stands }
        ensures does { IfOk result (λ d. IsDone (Steps.step (setting_by symbols.now) (left self.old) choice (memory_of state.old.store).cells) (left self.old) (memory_of state.old.store).cells d (left self.new) (memory_of state.new.store).cells) }
        ensures kept { OnErr result ((left self.new ≡ left self.old) × HasRoom (memory_of state.old.store) (memory_of state.new.store)) }
        ensures sound { IfOpen result (sound self.new symbols.now (memory_of state.new.store).stands) }
        ensures inside { IfSafe result (base self.new ≡ base self.old) }
        ensures grown { IfSafe result (HasKept (base self.old) (memory_of state.old.store) (memory_of state.new.store)) }
        ensures scope { state.new.scope ≡ state.old.scope };

    /// Drops its copies of these names, as far as they hold nothing.
    fn leave(&self, state: &mut State, names: &[Name])
        ensures cells { (memory_of state.new.store).cells ≡ (memory_of state.old.store).cells }
        ensures kept { list_all (is_own (base self.now)) names.now ≡ true → HasKept (base self.now) (memory_of state.old.store) (memory_of state.new.store) }
        ensures scope { state.new.scope ≡ state.old.scope };

    /// Drops the copies of the iterations inside of it that the latest step has finished.
    fn forget(&mut self, alloc: Global, store: &mut Store)
        requires sound { (table : Table) × sound self.old table (memory_of store.old).stands }
        ensures left { left self.new ≡ left self.old }
        ensures inside { base self.new ≡ base self.old }
        ensures cells { HasForgottenSpent (left self.old) (memory_of store.old) (memory_of store.new) }
        ensures others { HasSameBut (base self.old) (memory_of store.old) (memory_of store.new) }
        ensures kept { HasKept (base self.old) (memory_of store.old) (memory_of store.new) }
        ensures sound { (table : Table) → sound self.old table (memory_of store.old).stands → sound self.new table (memory_of store.new).stands };

    /// It can also be done where more of the cells that it may need exist.
    ghost grows: { (w : Self) (table : Table) (stands more : Cell → Bool) → ((c : Cell) → IsNear (base w) c → stands c ≡ true → more c ≡ true) → sound w table stands → sound w table more };
}

/// What stands for iterations deeper than loops are nested: none is ever started, and nothing is left of one.
#[derive(Drop)]
pub struct Never;

impl<'a> Work<'a> for Never {
    ghost use Rattle.ped_machine.specs.Levels.{never_left, never_base, IsNever};
    ghost use Rattle.ped_machine.specs.Growth.{never_grows};

    ghost left = { never_left };

    ghost base = { never_base };

    ghost sound = { IsNever };

    ghost grows = { never_grows };

    fn start(
        _alloc: Global,
        _state: &mut State,
        _d: &'a Do,
        _plan: &Plan,
        _earlier: u64,
    ) -> Result<Never, NoMemory> {
        Err(NoMemory)
    }

    fn is_over(&mut self) -> bool {
        true
    }

    fn step(
        &mut self,
        _alloc: Global,
        _symbols: &Symbols,
        _state: &mut State,
        _choice: u64,
    ) -> Result<Done, NoMemory> {
        Ok(Done::Ended)
    }

    fn leave(&self, _state: &mut State, _names: &[Name]) {}

    fn forget(&mut self, _alloc: Global, _store: &mut Store) {}
}
