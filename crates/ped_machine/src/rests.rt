//! The rest of the whole run or of an iteration, with the PARALLEL DO that is open in it.

ghost use Rattle.std.specs.Prelude.{◌≡◌, ◌<◌, ◌^◌, ℕ, Bool, true, false, None, IsSome, MatchOption, IfOk, OnOk, OnErr};
ghost use Rattle.ped_tree.specs.Views.{head_of, stmt_tree, stmt_trees, do_tree};
ghost use Rattle.ped_symbols.specs.Kinds.{Table};
ghost use Rattle.ped_store.specs.Cells.{Cell};
ghost use Rattle.ped_store.specs.Acts.{store_behind};
ghost use Rattle.ped_store.specs.Keeping.{memory_of};
ghost use Rattle.ped_interleavings.specs.ped_eval.specs.Scopes.{Scope};
ghost use Rattle.ped_interleavings.specs.ped_eval.specs.Loops.{exit_when_none};
ghost use Rattle.ped_interleavings.specs.ped_eval.specs.Agreement.{DoCopiesStand};
ghost use Rattle.ped_interleavings.specs.ped_eval.specs.Plans.{entered_by, IsPlan};
ghost use Rattle.ped_interleavings.specs.ped_eval.specs.Readiness.{setting_by, CanDo, IsReady};
ghost use Rattle.ped_interleavings.specs.Lefts.{Left, is_finished, wants_choice, entered_left};
ghost use Rattle.ped_interleavings.specs.Steps as Steps;
ghost use Rattle.ped_machine.specs.Bases.{HasKept, HasSameBut};
ghost use Rattle.ped_machine.specs.Naming.{HasForgottenSpent, HasForgottenRound};
ghost use Rattle.ped_machine.specs.Doing.{IsDone, IfOpen, IfSafe, HasGrown, HasRoom};
ghost use Rattle.ped_machine.specs.Parts.{base_of, CanGo, Begins, is_comment, is_loop, parts_left, parts_of};
ghost use Rattle.ped_machine.specs.Opens.{IsOpen, open_left};
ghost use Rattle.ped_machine.specs.Rests.{rest_left, IsSound};
ghost use Rattle.ped_machine.specs.declared.steps.Done.TheVariants as done;

use crate::acts::begin;
use crate::opens::Open;
use crate::parts::{Next, Parts};
use crate::steps::Done;
use crate::turns::{end_turn, enter_do};
use crate::works::Work;
use ped_base::NoMemory;
use ped_eval::{NoWatch, Plan, RunError, Scope, State, plan_of, write_exit};
use ped_marks::Marks;
use ped_store::Store;
use ped_symbols::Symbols;
use ped_tree::{Do, Stmt};
use slab::Slab;
use std::alloc::Global;

/// The rest of the whole run or of an iteration. The iterations around it are those of the state.
#[derive(Drop)]
pub struct Rest<'a, C> {
    /// The rest outside of the open loop.
    pub parts: Parts<'a>,
    /// The loop that is open.
    pub inner: Option<Open<'a, C>>,
}

impl<'a, C: Work<'a>> Rest<'a, C> {
    /// Whether nothing is left.
    pub fn is_over(&mut self) -> bool
        ensures over { (scope : Scope) → result ≡ is_finished (rest_left C.left scope self.old) }
        ensures left { (scope : Scope) → rest_left C.left scope self.new ≡ rest_left C.left scope self.old }
        ensures base { (scope : Scope) → base_of (parts_of self.new.parts) scope ≡ base_of (parts_of self.old.parts) scope }
        ensures sound { (scope : Scope) (table : Table) (stands : Cell → Bool) → IsSound C.left C.base C.sound scope self.old table stands → IsSound C.left C.base C.sound scope self.new table stands }
    {
        match &self.inner {
            None => return self.parts.is_over(),
            Some(_) => return false,
        }
    }

    /// Whether the next step is one of an iteration of the loop that is open.
    pub fn wants_choice(&self) -> bool
        ensures { (scope : Scope) (table : Table) (stands : Cell → Bool) → IsSound C.left C.base C.sound scope self.now table stands → result ≡ wants_choice (rest_left C.left scope self.now) }
    {
        match &self.inner {
            None => return false,
            Some(inner) => return inner.pick(0).is_some(),
        }
    }

    /// Drops the copies of the iterations of the open loop that the latest step has finished.
    pub fn forget(&mut self, alloc: Global, store: &mut Store, scope: &Scope)
        requires sound { (table : Table) × IsSound C.left C.base C.sound scope.now self.old table (memory_of store.old).stands }
        ensures left { rest_left C.left scope.now self.new ≡ rest_left C.left scope.now self.old }
        ensures parts { self.new.parts ≡ self.old.parts }
        ensures cells { HasForgottenSpent (rest_left C.left scope.now self.old) (memory_of store.old) (memory_of store.new) }
        ensures others { HasSameBut scope.now (memory_of store.old) (memory_of store.new) }
        ensures kept { HasForgottenRound scope.now (memory_of store.old) (memory_of store.new) }
        ensures sound { (table : Table) → IsSound C.left C.base C.sound scope.now self.old table (memory_of store.old).stands → IsSound C.left C.base C.sound scope.now self.new table (memory_of store.new).stands }
    {
        match &mut self.inner {
            None => {}
            Some(open) => open.forget(alloc, store, scope),
        }
    }

    /// Does the next step, with a choice.
    ///
    /// # Errors
    ///
    /// Out of memory. Then the rest is the same.
    pub fn step(
        &mut self,
        alloc: Global,
        symbols: &Symbols,
        state: &mut State,
        choice: u64,
    ) -> Result<Done, NoMemory>
        requires ready { IsReady symbols.now state.old.scope (memory_of state.old.store) }
        requires sound { IsSound C.left C.base C.sound state.old.scope self.old symbols.now (memory_of state.old.store).stands }
        ensures does { IfOk result (λ r. IsDone (Steps.step (setting_by symbols.now) (rest_left C.left state.old.scope self.old) choice (memory_of state.old.store).cells)
            (rest_left C.left state.old.scope self.old) (memory_of state.old.store).cells r (rest_left C.left state.new.scope self.new) (memory_of state.new.store).cells) }
        ensures kept { OnErr result ((state.new.scope ≡ state.old.scope) × (rest_left C.left state.old.scope self.new ≡ rest_left C.left state.old.scope self.old) × HasRoom (memory_of state.old.store) (memory_of state.new.store)) }
        ensures sound { IfOpen result (IsSound C.left C.base C.sound state.new.scope self.new symbols.now (memory_of state.new.store).stands) }
        ensures copies { IfOpen result (DoCopiesStand state.new.scope (memory_of state.new.store).stands) }
        ensures base { IfSafe result (base_of (parts_of self.new.parts) state.new.scope ≡ base_of (parts_of self.old.parts) state.old.scope) }
        ensures grown { IfSafe result (HasKept state.old.scope (memory_of state.old.store) (memory_of state.new.store)) }
    {
        if self.inner.is_some() {
            return self.step_open(alloc, symbols, state, choice);
        }
        match self.parts.next() {
            Next::Nothing => return Ok(Done::Ended),
            Next::EndsTurn => return end_turn(alloc, state, &mut self.parts),
            Next::Begins { stmt, number } => {
                return self.step_statement(alloc, symbols, state, stmt, number);
            }
        }
    }

    /// Does a step of the loop that is open: one of an iteration, or its close where all are finished.
    fn step_open(
        &mut self,
        alloc: Global,
        symbols: &Symbols,
        state: &mut State,
        choice: u64,
    ) -> Result<Done, NoMemory>
        requires some { IsSome self.old.inner }
        requires ready { IsReady symbols.now state.old.scope (memory_of state.old.store) }
        requires sound { IsSound C.left C.base C.sound state.old.scope self.old symbols.now (memory_of state.old.store).stands }
        ensures does { IfOk result (λ r. IsDone (Steps.step (setting_by symbols.now) (rest_left C.left state.old.scope self.old) choice (memory_of state.old.store).cells)
            (rest_left C.left state.old.scope self.old) (memory_of state.old.store).cells r (rest_left C.left state.new.scope self.new) (memory_of state.new.store).cells) }
        ensures kept { OnErr result ((state.new.scope ≡ state.old.scope) × (rest_left C.left state.old.scope self.new ≡ rest_left C.left state.old.scope self.old) × HasRoom (memory_of state.old.store) (memory_of state.new.store)) }
        ensures sound { IfOpen result (IsSound C.left C.base C.sound state.new.scope self.new symbols.now (memory_of state.new.store).stands) }
        ensures copies { IfOpen result (DoCopiesStand state.new.scope (memory_of state.new.store).stands) }
        ensures base { IfSafe result (base_of (parts_of self.new.parts) state.new.scope ≡ base_of (parts_of self.old.parts) state.old.scope) }
        ensures grown { IfSafe result (HasKept state.old.scope (memory_of state.old.store) (memory_of state.new.store)) }
    {
        match &mut self.inner {
            None => return Ok(Done::Ended),
            Some(inner) => match inner.pick(choice % inner.plan.count) {
                Some(place) => {
                    let within = choice / inner.plan.count;
                    return inner.step_at(alloc, symbols, state, place, within);
                }
                None => write_exit(state, inner.d, &inner.plan),
            },
        }
        self.inner = None;
        Ok(Done::Went)
    }

    /// Begins the first statement that is left.
    fn step_statement(
        &mut self,
        alloc: Global,
        symbols: &Symbols,
        state: &mut State,
        stmt: &'a Stmt,
        number: u32,
    ) -> Result<Done, NoMemory>
        requires none { self.old.inner ≡ None }
        requires begins { Begins (stmt_tree stmt.now) number (parts_of self.old.parts) }
        requires ready { IsReady symbols.now state.old.scope (memory_of state.old.store) }
        requires sound { IsSound C.left C.base C.sound state.old.scope self.old symbols.now (memory_of state.old.store).stands }
        ensures does { IfOk result (λ r. (c : ℕ) → IsDone (Steps.step (setting_by symbols.now) (rest_left C.left state.old.scope self.old) c (memory_of state.old.store).cells)
            (rest_left C.left state.old.scope self.old) (memory_of state.old.store).cells r (rest_left C.left state.new.scope self.new) (memory_of state.new.store).cells) }
        ensures kept { OnErr result ((state.new.scope ≡ state.old.scope) × (rest_left C.left state.old.scope self.new ≡ rest_left C.left state.old.scope self.old) × HasRoom (memory_of state.old.store) (memory_of state.new.store)) }
        ensures sound { IfOpen result (IsSound C.left C.base C.sound state.new.scope self.new symbols.now (memory_of state.new.store).stands) }
        ensures copies { IfOpen result (DoCopiesStand state.new.scope (memory_of state.new.store).stands) }
        ensures base { IfSafe result (base_of (parts_of self.new.parts) state.new.scope ≡ base_of (parts_of self.old.parts) state.old.scope) }
        ensures grown { IfSafe result (HasGrown (memory_of state.old.store) (memory_of state.new.store)) }
    {
        let before = self.parts.advance();
        match self.step_advanced(alloc, symbols, state, stmt, number) {
            Ok(done) => return Ok(done),
            Err(error) => {
                self.parts.set_block(before);
                return Err(error);
            }
        }
    }

    /// Begins a statement, where the rest is what follows it.
    fn step_advanced(
        &mut self,
        alloc: Global,
        symbols: &Symbols,
        state: &mut State,
        stmt: &'a Stmt,
        number: u32,
    ) -> Result<Done, NoMemory>
        requires none { self.old.inner ≡ None }
        requires can { CanDo symbols.now state.old.scope number (stmt_tree stmt.now) }
        requires real { is_comment (stmt_tree stmt.now) ≡ false }
        requires ready { IsReady symbols.now state.old.scope (memory_of state.old.store) }
        requires sound { IsSound C.left C.base C.sound state.old.scope self.old symbols.now (memory_of state.old.store).stands }
        ensures does { IfOk result (λ r. (l : Left) → IsDone (Steps.begun (setting_by symbols.now) (stmt_tree stmt.now) number state.old.scope (parts_left (parts_of self.old.parts) state.old.scope) (memory_of state.old.store).cells)
            l (memory_of state.old.store).cells r (rest_left C.left state.new.scope self.new) (memory_of state.new.store).cells) }
        ensures kept { OnErr result ((state.new.scope ≡ state.old.scope) × (parts_of self.new.parts ≡ parts_of self.old.parts) × (self.new.inner ≡ self.old.inner) × HasRoom (memory_of state.old.store) (memory_of state.new.store)) }
        ensures sound { IfOpen result (IsSound C.left C.base C.sound state.new.scope self.new symbols.now (memory_of state.new.store).stands) }
        ensures copies { IfOpen result (DoCopiesStand state.new.scope (memory_of state.new.store).stands) }
        ensures base { IfSafe result (base_of (parts_of self.new.parts) state.new.scope ≡ base_of (parts_of self.old.parts) state.old.scope) }
        ensures grown { IfSafe result (HasGrown (memory_of state.old.store) (memory_of state.new.store)) }
    {
        match loop_of(stmt) {
            Some(d) => return self.enter(alloc, symbols, state, d, number),
            None => return begin(alloc, symbols, state, &mut self.parts, stmt, number),
        }
    }

    /// Enters a DO, where the rest is what follows it (ANSI X3.9-1978, section 11.10.3).
    fn enter(
        &mut self,
        alloc: Global,
        symbols: &Symbols,
        state: &mut State,
        d: &'a Do,
        number: u32,
    ) -> Result<Done, NoMemory>
        requires none { self.old.inner ≡ None }
        requires can { CanDo symbols.now state.old.scope number (do_tree d.now) }
        requires ready { IsReady symbols.now state.old.scope (memory_of state.old.store) }
        requires sound { IsSound C.left C.base C.sound state.old.scope self.old symbols.now (memory_of state.old.store).stands }
        ensures does { IfOk result (λ r. (l : Left) → IsDone (Steps.begun (setting_by symbols.now) (do_tree d.now) number state.old.scope (parts_left (parts_of self.old.parts) state.old.scope) (memory_of state.old.store).cells)
            l (memory_of state.old.store).cells r (rest_left C.left state.new.scope self.new) (memory_of state.new.store).cells) }
        ensures kept { OnErr result ((state.new.scope ≡ state.old.scope) × (parts_of self.new.parts ≡ parts_of self.old.parts) × (self.new.inner ≡ self.old.inner) × HasRoom (memory_of state.old.store) (memory_of state.new.store)) }
        ensures sound { IfOpen result (IsSound C.left C.base C.sound state.new.scope self.new symbols.now (memory_of state.new.store).stands) }
        ensures copies { IfOpen result (DoCopiesStand state.new.scope (memory_of state.new.store).stands) }
        ensures base { IfSafe result (base_of (parts_of self.new.parts) state.new.scope ≡ base_of (parts_of self.old.parts) state.old.scope) }
        ensures grown { IfSafe result (HasGrown (memory_of state.old.store) (memory_of state.new.store)) }
    {
        match plan_of(alloc, symbols, state, &mut NoWatch, d, number) {
            Ok(plan) => return self.go_in(alloc, state, d, plan),
            Err(error) => match &error {
                RunError::Fault { fault, statement } => return Ok(Done::Fault {
                    fault: *fault,
                    statement: *statement,
                }),
                RunError::NoMemory => return Err(NoMemory),
            },
        }
    }

    /// Goes into a DO that has been entered: with a count of 0 it is left, a PARALLEL DO is opened, and another goes on with
    /// its first iteration (section 11.10.4).
    fn go_in(
        &mut self,
        alloc: Global,
        state: &mut State,
        d: &'a Do,
        plan: Plan,
    ) -> Result<Done, NoMemory>
        requires none { self.old.inner ≡ None }
        requires plan { IsPlan (head_of d.now) (stmt_trees d.now.body.items) plan }
        requires can { (table : Table) × (CanDo table state.old.scope plan.number (do_tree d.now) × IsReady table state.old.scope (memory_of state.old.store)) }
        ensures done { IfOk result (λ r. r ≡ done.Went) }
        ensures left { OnOk result (rest_left C.left state.new.scope self.new ≡ entered_left d.now.parallel plan.count (entered_by (head_of d.now) plan plan.behind) (stmt_trees d.now.body.items) plan.number state.old.scope (parts_left (parts_of self.old.parts) state.old.scope)) }
        ensures store { OnOk result ((memory_of state.new.store).cells ≡ store_behind (exit_when_none plan.count (entered_by (head_of d.now) plan plan.behind) state.old.scope) (memory_of state.old.store).cells) }
        ensures kept { OnErr result ((state.new.scope ≡ state.old.scope) × (parts_of self.new.parts ≡ parts_of self.old.parts) × (self.new.inner ≡ self.old.inner) × HasRoom (memory_of state.old.store) (memory_of state.new.store)) }
        ensures sound { OnOk result ((table : Table) → CanDo table state.old.scope plan.number (do_tree d.now) → CanGo table (parts_of self.old.parts) state.old.scope → IsSound C.left C.base C.sound state.new.scope self.new table (memory_of state.new.store).stands) }
        ensures copies { OnOk result (DoCopiesStand state.old.scope (memory_of state.old.store).stands → DoCopiesStand state.new.scope (memory_of state.new.store).stands) }
        ensures base { OnOk result (base_of (parts_of self.new.parts) state.new.scope ≡ base_of (parts_of self.old.parts) state.old.scope) }
        ensures grown { OnOk result (HasGrown (memory_of state.old.store) (memory_of state.new.store)) }
    {
        if plan.count == 0 {
            write_exit(state, d, &plan);
            return Ok(Done::Went);
        }
        if d.parallel {
            self.inner = Some(opened(alloc, d, plan));
            return Ok(Done::Went);
        }
        enter_do(alloc, state, &mut self.parts, d, plan)
    }
}

/// A PARALLEL DO, none of whose iterations has been started.
fn opened<'a, C: Work<'a>>(alloc: Global, d: &'a Do, plan: Plan) -> Open<'a, C>
    requires plan { IsPlan (head_of d.now) (stmt_trees d.now.body.items) plan }
    requires some { 0 < plan.count }
    ensures left { (scope : Scope) (rest : Left) → open_left C.left scope result rest ≡ entered_left true plan.count (entered_by (head_of d.now) plan plan.behind) (stmt_trees d.now.body.items) plan.number scope rest }
    ensures inner { (scope : Scope) (table : Table) (stands : Cell → Bool) → CanDo table scope plan.number (do_tree d.now) → IsOpen C.left C.base C.sound table stands scope result }
{
    let marks = Marks::new(alloc, plan.count);
    let tasks = Slab::new(alloc);
    Open {
        d,
        plan,
        tasks,
        marks,
        latest: None,
    }
}

/// The DO that a statement is.
fn loop_of(stmt: &Stmt) -> Option<&Do>
    ensures { MatchOption result (is_loop (stmt_tree stmt.now) ≡ false) (λ d. stmt_tree stmt.now ≡ do_tree d.now) }
{
    match stmt {
        Stmt::Do(d) => return Some(d),
        Stmt::Assign { left: _, right: _ }
        | Stmt::If {
            condition: _,
            then_part: _,
            else_part: _,
        }
        | Stmt::Print(_)
        | Stmt::Read(_)
        | Stmt::Stop
        | Stmt::Comment(_) => return None,
    }
}
