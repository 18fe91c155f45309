//! Open PARALLEL DO loops: what remains of each of their iterations.

ghost use Rattle.std.specs.Prelude.{◌≡◌, ◌≢◌, ◌<◌, ℕ, length, Bool, true, false, [], Some, None, IsSome, IfOk, OnErr};
ghost use Rattle.std.specs.List.{list_all};
ghost use Rattle.slab.specs.Slab.{get, SameValues};
ghost use Rattle.ped_marks.specs.Marks.{at};
ghost use Rattle.ped_marks.specs.declared.marks.Mark.TheVariants as mark;
ghost use Rattle.ped_marks.specs.declared.marks.Mark.TheVariants.{Waits, Running};
ghost use Rattle.ped_symbols.specs.Kinds.{Table};
ghost use Rattle.ped_store.specs.Cells.{Cell};
ghost use Rattle.ped_store.specs.Keeping.{memory_of};
ghost use Rattle.ped_interleavings.specs.ped_eval.specs.Scopes.{Scope};
ghost use Rattle.ped_interleavings.specs.ped_eval.specs.Readiness.{setting_by, IsReady};
ghost use Rattle.ped_interleavings.specs.Lefts.{is_finished, unfinished, or_else};
ghost use Rattle.ped_interleavings.specs.Steps as Steps;
ghost use Rattle.ped_machine.specs.Doing.{IsDone, IfOpen, IfSafe, HasRoom};
ghost use Rattle.ped_machine.specs.Bases.{is_own, HasKept};
ghost use Rattle.ped_machine.specs.Stepping.{HasSettled, HasStepped, HasForgottenIn, IsLookedAt};
ghost use Rattle.ped_machine.specs.Naming.{HasForgottenRound};
ghost use Rattle.ped_machine.specs.Opens.{HasForgottenAt, HasMarked, IsOpen, IsRunning, IsSameLoop, IsSameElsewhere, lefts_of, place_left, place_scope};

use crate::parts::without_comments;
use crate::steps::Done;
use crate::turns::forget_turn;
use crate::works::Work;
use ped_base::{Name, NoMemory};
use ped_eval::{Plan, Scope, State};
use ped_marks::{Mark, Marks};
use ped_store::Store;
use ped_symbols::Symbols;
use ped_tree::Do;
use slab::Slab;
use std::alloc::Global;

/// A PARALLEL DO that is open. It keeps the iterations that have been started and aren't finished.
#[derive(Drop)]
pub struct Open<'a, C> {
    /// The loop.
    pub d: &'a Do,
    /// What stays the same in all its iterations.
    pub plan: Plan,
    /// The iterations that run, by their keys.
    pub tasks: Slab<C>,
    /// How far each iteration is, by its place, from 0.
    pub marks: Marks,
    /// The place of the iteration that has done the latest step, unless its copies have been looked at since.
    pub latest: Option<u64>,
}

impl<'a, C: Work<'a>> Open<'a, C> {
    /// The place of the first iteration at this place or after it that isn't finished, wrapping around.
    pub fn pick(&self, place: u64) -> Option<u64>
        ensures { (scope : Scope) (table : Table) (stands : Cell → Bool) → IsOpen C.left C.base C.sound table stands scope self.now
            → result ≡ or_else (unfinished place (lefts_of self.now.plan.count (place_left C.left scope self.now))) (unfinished 0 (lefts_of self.now.plan.count (place_left C.left scope self.now))) }
    {
        if without_comments(&self.d.body).is_empty() {
            return None;
        }
        match self.marks.unfinished(place) {
            Some(found) => return Some(found),
            None => return self.marks.unfinished(0),
        }
    }

    /// Does a step of the iteration at this place.
    pub fn step_at(
        &mut self,
        alloc: Global,
        symbols: &Symbols,
        state: &mut State,
        place: u64,
        choice: u64,
    ) -> Result<Done, NoMemory>
        requires ready { IsReady symbols.now state.old.scope (memory_of state.old.store) }
        requires inner { IsOpen C.left C.base C.sound symbols.now (memory_of state.old.store).stands state.old.scope self.old }
        requires place { place < self.old.plan.count }
        requires unfinished { is_finished (place_left C.left state.old.scope self.old place) ≡ false }
        ensures does { IfOk result (λ d. IsDone (Steps.step (setting_by symbols.now) (place_left C.left state.old.scope self.old place) choice (memory_of state.old.store).cells)
            (place_left C.left state.old.scope self.old place) (memory_of state.old.store).cells d (place_left C.left state.old.scope self.new place) (memory_of state.new.store).cells) }
        ensures kept { OnErr result ((place_left C.left state.old.scope self.new place ≡ place_left C.left state.old.scope self.old place) × HasRoom (memory_of state.old.store) (memory_of state.new.store)) }
        ensures same { IfOpen result (IsSameLoop self.old self.new) }
        ensures elsewhere { IfOpen result (IsSameElsewhere C.left state.old.scope place self.old self.new) }
        ensures inner { IfOpen result (IsOpen C.left C.base C.sound symbols.now (memory_of state.new.store).stands state.old.scope self.new) }
        ensures grown { IfSafe result (HasKept (place_scope state.old.scope self.old place) (memory_of state.old.store) (memory_of state.new.store)) }
        ensures scope { state.new.scope ≡ state.old.scope }
    {
        match self.marks.at(place) {
            Mark::Waits => match self.start(alloc, state, place) {
                Ok(key) => return self.step_running(alloc, symbols, state, place, key, choice),
                Err(error) => return Err(error),
            },
            Mark::Running(key) => {
                return self.step_running(alloc, symbols, state, place, key, choice);
            }
            Mark::Done => return Ok(Done::Ended),
        }
    }

    /// Starts the iteration at this place, and answers its key.
    fn start(&mut self, alloc: Global, state: &mut State, place: u64) -> Result<usize, NoMemory>
        requires inner { (table : Table) × (IsReady table state.old.scope (memory_of state.old.store) × IsOpen C.left C.base C.sound table (memory_of state.old.store).stands state.old.scope self.old) }
        requires place { place < self.old.plan.count }
        requires waits { at self.old.marks place ≡ Waits }
        requires unfinished { is_finished (place_left C.left state.old.scope self.old place) ≡ false }
        ensures running { IfOk result (λ key. at self.new.marks place ≡ Running key) }
        ensures same { IsSameLoop self.old self.new }
        ensures left { (j : ℕ) → j < self.old.plan.count → place_left C.left state.old.scope self.new j ≡ place_left C.left state.old.scope self.old j }
        ensures inner { (table : Table) → IsReady table state.old.scope (memory_of state.old.store) → IsOpen C.left C.base C.sound table (memory_of state.old.store).stands state.old.scope self.old → IsOpen C.left C.base C.sound table (memory_of state.new.store).stands state.old.scope self.new }
        ensures room { HasRoom (memory_of state.old.store) (memory_of state.new.store) }
        ensures scope { state.new.scope ≡ state.old.scope }
    {
        match C::start(alloc, state, self.d, &self.plan, place) {
            Ok(task) => return self.keep(task, place),
            Err(error) => return Err(error),
        }
    }

    /// Keeps an iteration that has been started, and answers its key.
    fn keep(&mut self, task: C, place: u64) -> Result<usize, NoMemory>
        requires place { place < length self.old.marks }
        requires waits { at self.old.marks place ≡ Waits }
        ensures free { IfOk result (λ key. get self.old.tasks key ≡ None) }
        ensures marked { IfOk result (λ key. HasMarked (Some task) (Running key) place key self.old self.new) }
        ensures kept { OnErr result (IsSameLoop self.old self.new × (self.new.marks ≡ self.old.marks) × SameValues self.old.tasks self.new.tasks) }
    {
        let key = self.tasks.insert(task)?;
        match self.marks.start(place, key) {
            Ok(()) => return Ok(key),
            Err(error) => {
                self.tasks.try_remove(key);
                return Err(error);
            }
        }
    }

    /// Does a step of the iteration with this key, at this place.
    fn step_running(
        &mut self,
        alloc: Global,
        symbols: &Symbols,
        state: &mut State,
        place: u64,
        key: usize,
        choice: u64,
    ) -> Result<Done, NoMemory>
        requires ready { IsReady symbols.now state.old.scope (memory_of state.old.store) }
        requires inner { IsOpen C.left C.base C.sound symbols.now (memory_of state.old.store).stands state.old.scope self.old }
        requires place { place < self.old.plan.count }
        requires running { at self.old.marks place ≡ Running key }
        ensures does { IfOk result (λ d. IsDone (Steps.step (setting_by symbols.now) (place_left C.left state.old.scope self.old place) choice (memory_of state.old.store).cells)
            (place_left C.left state.old.scope self.old place) (memory_of state.old.store).cells d (place_left C.left state.old.scope self.new place) (memory_of state.new.store).cells) }
        ensures kept { OnErr result ((place_left C.left state.old.scope self.new place ≡ place_left C.left state.old.scope self.old place) × HasRoom (memory_of state.old.store) (memory_of state.new.store)) }
        ensures same { IfOpen result (IsSameLoop self.old self.new) }
        ensures elsewhere { IfOpen result (IsSameElsewhere C.left state.old.scope place self.old self.new) }
        ensures inner { IfOpen result (IsOpen C.left C.base C.sound symbols.now (memory_of state.new.store).stands state.old.scope self.new) }
        ensures grown { IfSafe result (HasKept (place_scope state.old.scope self.old place) (memory_of state.old.store) (memory_of state.new.store)) }
        ensures scope { state.new.scope ≡ state.old.scope }
    {
        match self.step_task(alloc, symbols, state, key, choice) {
            Ok(done) => {
                self.finish_over(state, place, key);
                self.latest = Some(place);
                return Ok(done);
            }
            Err(error) => return Err(error),
        }
    }

    /// Does a step of the iteration with this key.
    fn step_task(
        &mut self,
        alloc: Global,
        symbols: &Symbols,
        state: &mut State,
        key: usize,
        choice: u64,
    ) -> Result<Done, NoMemory>
        requires ready { IsReady symbols.now [] (memory_of state.old.store) }
        requires running { (inner : Scope) × IsRunning C.left C.base C.sound symbols.now (memory_of state.old.store).stands self.old.tasks inner key }
        ensures same { IsSameLoop self.old self.new × (self.new.marks ≡ self.old.marks) }
        ensures stepped { HasStepped C.left C.base C.sound symbols.now key choice self.old.tasks self.new.tasks (memory_of state.old.store) (memory_of state.new.store) result }
        ensures grown { (task : C) → get self.old.tasks key ≡ Some task → IfSafe result (HasKept (C.base task) (memory_of state.old.store) (memory_of state.new.store)) }
        ensures scope { state.new.scope ≡ state.old.scope }
    {
        match self.tasks.get_mut(key) {
            None => return Ok(Done::Ended),
            Some(task) => return task.step(alloc, symbols, state, choice),
        }
    }

    /// Drops the iteration with this key, at this place, where nothing is left of it, and marks it as finished. Its copies
    /// that hold nothing are dropped with it.
    fn finish_over(&mut self, state: &mut State, place: u64, key: usize)
        requires place { place < length self.old.marks }
        requires running { at self.old.marks place ≡ Running key }
        requires kept { IsSome (get self.old.tasks key) }
        ensures settled { HasSettled C.left C.base C.sound place key self.old self.new (memory_of state.old.store) (memory_of state.new.store) }
        ensures scope { state.new.scope ≡ state.old.scope }
    {
        if self.is_task_over(key) {
            self.drop_task(state, place, key);
            return;
        }
    }

    /// Drops the iteration with this key, at this place, with its copies that hold nothing, and marks it as finished.
    fn drop_task(&mut self, state: &mut State, place: u64, key: usize)
        requires place { place < length self.old.marks }
        requires running { at self.old.marks place ≡ Running key }
        ensures marked { HasMarked None mark.Done place key self.old self.new }
        ensures cells { (memory_of state.new.store).cells ≡ (memory_of state.old.store).cells }
        ensures kept { (task : C) → get self.old.tasks key ≡ Some task → list_all (is_own (C.base task)) self.old.plan.copied ≡ true → HasKept (C.base task) (memory_of state.old.store) (memory_of state.new.store) }
        ensures scope { state.new.scope ≡ state.old.scope }
    {
        let task = self.tasks.try_remove(key);
        self.marks.finish(place);
        leave_task(state, task, self.plan.copied.as_slice())
    }

    /// Drops the copies of the iteration that the latest step has finished, here or inside.
    pub fn forget(&mut self, alloc: Global, store: &mut Store, scope: &Scope)
        requires inner { (table : Table) × IsOpen C.left C.base C.sound table (memory_of store.old).stands scope.now self.old }
        ensures same { IsSameLoop self.old self.new }
        ensures left { (j : ℕ) → j < self.old.plan.count → place_left C.left scope.now self.new j ≡ place_left C.left scope.now self.old j }
        ensures cells { HasForgottenAt C.left scope.now self.old (memory_of store.old) (memory_of store.new) }
        ensures kept { HasForgottenRound scope.now (memory_of store.old) (memory_of store.new) }
        ensures inner { (table : Table) → IsOpen C.left C.base C.sound table (memory_of store.old).stands scope.now self.old → IsOpen C.left C.base C.sound table (memory_of store.new).stands scope.now self.new }
    {
        match self.latest.take() {
            None => {}
            Some(place) => {
                if self.has_place(place) {
                    self.forget_at(alloc, store, scope, place);
                }
            }
        }
    }

    /// Drops the copies of the iteration at this place if it is finished, and else of those inside that the latest step
    /// has finished.
    fn forget_at(&mut self, alloc: Global, store: &mut Store, scope: &Scope, place: u64)
        requires place { place < self.old.plan.count }
        requires inner { (table : Table) × IsOpen C.left C.base C.sound table (memory_of store.old).stands scope.now self.old }
        ensures same { IsSameLoop self.old self.new }
        ensures left { (j : ℕ) → j < self.old.plan.count → place_left C.left scope.now self.new j ≡ place_left C.left scope.now self.old j }
        ensures cells { HasForgottenAt C.left scope.now self.old (memory_of store.old) (memory_of store.new) }
        ensures kept { HasForgottenRound scope.now (memory_of store.old) (memory_of store.new) }
        ensures inner { (table : Table) → IsOpen C.left C.base C.sound table (memory_of store.old).stands scope.now self.old → IsOpen C.left C.base C.sound table (memory_of store.new).stands scope.now self.new }
    {
        match self.marks.at(place) {
            Mark::Waits => {}
            Mark::Running(key) => self.forget_inside(alloc, store, key),
            Mark::Done => forget_turn(alloc, store, scope, self.d, &self.plan, place),
        }
    }

    /// Whether the loop has an iteration at this place.
    fn has_place(&self, place: u64) -> bool
        ensures { result ≡ true → place < self.now.plan.count }
    {
        place < self.plan.count
    }

    /// Drops the copies of those inside of the iteration with this key that the latest step has finished.
    fn forget_inside(&mut self, alloc: Global, store: &mut Store, key: usize)
        requires running { (table : Table) × (inner : Scope) × IsRunning C.left C.base C.sound table (memory_of store.old).stands self.old.tasks inner key }
        ensures same { IsSameLoop self.old self.new × (self.new.marks ≡ self.old.marks) }
        ensures forgotten { HasForgottenIn C.left C.base C.sound key self.old.tasks self.new.tasks (memory_of store.old) (memory_of store.new) }
    {
        match self.tasks.get_mut(key) {
            None => {}
            Some(task) => task.forget(alloc, store),
        }
    }

    /// Whether nothing is left of the iteration with this key.
    fn is_task_over(&mut self, key: usize) -> bool
        requires kept { IsSome (get self.old.tasks key) }
        ensures same { IsSameLoop self.old self.new × (self.new.marks ≡ self.old.marks) }
        ensures over { IsLookedAt C.left C.base C.sound key self.old.tasks self.new.tasks result }
    {
        match self.tasks.get_mut(key) {
            None => return false,
            Some(task) => return task.is_over(),
        }
    }
}

/// Drops the copies of these names of an iteration that is over, as far as they hold nothing.
fn leave_task<'a, C: Work<'a>>(state: &mut State, task: Option<C>, names: &[Name])
    ensures cells { (memory_of state.new.store).cells ≡ (memory_of state.old.store).cells }
    ensures kept { (w : C) → task ≡ Some w → list_all (is_own (C.base w)) names.now ≡ true → HasKept (C.base w) (memory_of state.old.store) (memory_of state.new.store) }
    ensures scope { state.new.scope ≡ state.old.scope }
{
    match task {
        None => {}
        Some(task) => task.leave(state, names),
    }
}
