//! The iterations of DO loops: how one begins, and how it ends (ANSI X3.9-1978, section 11.10).

ghost use Rattle.std.specs.Prelude.{◌≡◌, ◌<◌, ◌≤◌, ◌+◌, ◌^◌, ◌∷◌, ℕ, length, Bool, true, MatchBool, IfOk, OnOk, OnErr};
ghost use Rattle.std.specs.List.{list_all};
ghost use Rattle.ped_tree.specs.Views.{head_of, stmt_trees, do_tree};
ghost use Rattle.ped_symbols.specs.Kinds.{Table};
ghost use Rattle.ped_store.specs.CellViews.{cell_view, IsCell, IsPrivate};
ghost use Rattle.ped_store.specs.Keeping.{memory_of};
ghost use Rattle.ped_interleavings.specs.ped_eval.specs.Scopes as Scopes;
ghost use Rattle.ped_interleavings.specs.ped_eval.specs.Scopes.{Setting, cell_of};
ghost use Rattle.ped_interleavings.specs.ped_eval.specs.ScopeViews.{frame_view, outside};
ghost use Rattle.ped_interleavings.specs.ped_eval.specs.Loops as Loops;
ghost use Rattle.ped_interleavings.specs.ped_eval.specs.Agreement.{is_copy, DoCopiesStand};
ghost use Rattle.ped_interleavings.specs.ped_eval.specs.Plans.{entered_by, IsPlan};
ghost use Rattle.ped_interleavings.specs.ped_eval.specs.Readiness.{CanDo, IsReady};
ghost use Rattle.ped_interleavings.specs.Lefts.{turns_left};
ghost use Rattle.ped_interleavings.specs.Steps as Steps;
ghost use Rattle.ped_machine.specs.Bases.{is_own, HasKept, HasLost, HasForgotten, HasSameBut, IsWithin};
ghost use Rattle.ped_machine.specs.Doing.{IsDone, IfOpen, IfSafe, HasGrown, HasRoom};
ghost use Rattle.ped_machine.specs.Parts.{base_of, CanGo, Ends, first_turn_part, parts_left, parts_of};
ghost use Rattle.ped_machine.specs.declared.steps.Done.TheVariants as done;

use crate::levels::inner_scope;
use crate::parts::{Part, Parts, Turn};
use crate::steps::Done;
use ped_base::{Name, NoMemory};
use ped_eval::{Frame, Plan, Scope, State, leave_loop};
use ped_store::{Cell, Store};
use ped_tree::{Do, copy_names};
use std::alloc::Global;

/// What stands for the iteration of a DO that this many others precede.
pub(crate) fn frame_of(alloc: Global, d: &Do, plan: &Plan, earlier: u64) -> Result<Frame, NoMemory>
    requires plan { IsPlan (head_of d.now) (stmt_trees d.now.body.items) plan.now }
    requires earlier { earlier < plan.now.count }
    ensures { IfOk result (λ f. frame_view f ≡ Loops.frame (entered_by (head_of d.now) plan.now 0) (earlier + 1)) }
{
    let _count = plan.count;
    let number = earlier + 1;
    let value = plan.value_behind(earlier);
    let private = copy_names(&plan.copied, alloc)?;
    Ok(Frame {
        statement: plan.number,
        parallel: d.parallel,
        number,
        value,
        variable: d.variable,
        private,
    })
}

/// Makes the copies of these names, which are private to these iterations. An existing one keeps what it holds.
pub(crate) fn open_copies(
    alloc: Global,
    store: &mut Store,
    scope: &Scope,
    names: &[Name],
) -> Result<(), NoMemory>
    requires { list_all (λ x. is_copy (cell_of scope.now x)) names.now ≡ true }
    ensures room { HasRoom (memory_of store.old) (memory_of store.new) }
    ensures stand { OnOk result (list_all (λ x. (memory_of store.new).stands (cell_of scope.now x)) names.now ≡ true) }
{
    for place in 0..names.len() {
        let cell = scope.cell_at(&names[place], place);
        open_copy(alloc, store, &cell)?;
    }
    Ok(())
}

/// Makes a private copy. An existing one keeps what it holds.
fn open_copy(alloc: Global, store: &mut Store, cell: &Cell) -> Result<(), NoMemory>
    requires cell { IsCell cell.now }
    requires copy { is_copy (cell_view cell.now) ≡ true }
    ensures room { HasRoom (memory_of store.old) (memory_of store.new) }
    ensures stands { OnOk result ((memory_of store.new).stands (cell_view cell.now) ≡ true) }
{
    match store.get(cell) {
        Ok(_) => return Ok(()),
        Err(_) => return store.open_copy(alloc, cell),
    }
}

/// Drops those copies of these names that are private to these iterations and hold nothing.
pub(crate) fn drop_copies(store: &mut Store, scope: &Scope, names: &[Name])
    ensures cells { (memory_of store.new).cells ≡ (memory_of store.old).cells }
    ensures kept { (base : Scopes.Scope) → IsWithin base scope.now → list_all (is_own base) names.now ≡ true → HasKept base (memory_of store.old) (memory_of store.new) }
{
    for place in 0..names.len() {
        let cell = scope.cell_at(&names[place], place);
        drop_copy(store, &cell);
    }
}

/// Drops a private copy that holds nothing.
fn drop_copy(store: &mut Store, cell: &Cell)
    requires { IsCell cell.now }
    ensures { HasLost (cell_view cell.now) (memory_of store.old) (memory_of store.new) }
{
    if is_copy(cell) {
        match store.get(cell) {
            Ok(_) => return,
            Err(_) => {
                store.close_copy(cell);
                return;
            }
        }
    }
}

/// Drops the copies of the iteration of a PARALLEL DO that this many others precede. The first name is that of the loop's
/// variable, whose copy holds nothing, so that there is nothing to do where it is the only one. If memory runs out, the
/// copies stay.
pub(crate) fn forget_turn(
    alloc: Global,
    store: &mut Store,
    scope: &Scope,
    d: &Do,
    plan: &Plan,
    earlier: u64,
)
    requires plan { IsPlan (head_of d.now) (stmt_trees d.now.body.items) plan.now }
    requires earlier { earlier < plan.now.count }
    requires few { length scope.now < 6 }
    ensures cells { HasSameBut (Loops.frame (entered_by (head_of d.now) plan.now 0) (earlier + 1) ∷ scope.now) (memory_of store.old) (memory_of store.new) }
    ensures kept { HasKept (Loops.frame (entered_by (head_of d.now) plan.now 0) (earlier + 1) ∷ scope.now) (memory_of store.old) (memory_of store.new) }
{
    let names = plan.copied.as_slice();
    if names.len() > 1 {
        match inner_scope(alloc, scope, d, plan, earlier) {
            Ok(inner) => forget_copies(store, &inner, names),
            Err(_) => {}
        }
    }
}

/// Drops those copies of these names that are private to these iterations.
fn forget_copies(store: &mut Store, scope: &Scope, names: &[Name])
    ensures { (base : Scopes.Scope) → IsWithin base scope.now → list_all (is_own base) names.now ≡ true → HasSameBut base (memory_of store.old) (memory_of store.new) × HasKept base (memory_of store.old) (memory_of store.new) }
{
    for place in 0..names.len() {
        let cell = scope.cell_at(&names[place], place);
        forget_copy(store, &cell);
    }
}

/// Drops a private copy.
fn forget_copy(store: &mut Store, cell: &Cell)
    requires { IsCell cell.now }
    ensures { HasForgotten (cell_view cell.now) (memory_of store.old) (memory_of store.new) }
{
    if is_copy(cell) {
        store.close_copy(cell);
    }
}

/// Whether the cell is a private copy.
fn is_copy(cell: &Cell) -> bool
    requires { IsCell cell.now }
    ensures copy { result ≡ is_copy (cell_view cell.now) }
    ensures private { result ≡ true → IsPrivate cell.now }
{
    match cell {
        Cell::Private(_) => return true,
        Cell::Scalar(_) => return false,
        Cell::Element {
            name: _,
            rank: _,
            subscripts: _,
        } => return false,
        Cell::In => return false,
        Cell::Out => return false,
    }
}

/// Goes into a DO: its first iteration comes before the rest after the DO.
pub(crate) fn enter_do<'a>(
    alloc: Global,
    state: &mut State,
    parts: &mut Parts<'a>,
    d: &'a Do,
    plan: Plan,
) -> Result<Done, NoMemory>
    requires plan { IsPlan (head_of d.now) (stmt_trees d.now.body.items) plan }
    requires some { 0 < plan.count }
    requires few { length state.old.scope < 6 }
    requires number { plan.number + 1 < 2 ^ 32 }
    ensures done { IfOk result (λ r. r ≡ done.Went) }
    ensures left { OnOk result (parts_left (parts_of parts.new) state.new.scope ≡ turns_left plan.count 1 (entered_by (head_of d.now) plan plan.behind) (stmt_trees d.now.body.items) plan.number state.old.scope (parts_left (parts_of parts.old) state.old.scope)) }
    ensures go { OnOk result ((table : Table) → CanDo table state.old.scope plan.number (do_tree d.now) → CanGo table (parts_of parts.old) state.old.scope → CanGo table (parts_of parts.new) state.new.scope) }
    ensures copies { OnOk result (DoCopiesStand state.old.scope (memory_of state.old.store).stands → DoCopiesStand state.new.scope (memory_of state.new.store).stands) }
    ensures base { OnOk result (base_of (parts_of parts.new) state.new.scope ≡ base_of (parts_of parts.old) state.old.scope) }
    ensures room { HasRoom (memory_of state.old.store) (memory_of state.new.store) }
    ensures kept { OnErr result ((state.new.scope ≡ state.old.scope) × ((parts_of parts.new) ≡ (parts_of parts.old))) }
{
    let frame = frame_of(alloc, d, &plan, 0)?;
    state.scope.enter(frame)?;
    match open_body(alloc, state, parts, d, plan) {
        Ok(()) => return Ok(Done::Went),
        Err(error) => {
            state.scope.leave();
            return Err(error);
        }
    }
}

/// Makes the copies of the first iteration of a DO, and puts its body before the rest.
fn open_body<'a>(
    alloc: Global,
    state: &mut State,
    parts: &mut Parts<'a>,
    d: &'a Do,
    plan: Plan,
) -> Result<(), NoMemory>
    requires copies { list_all (λ x. is_copy (cell_of state.old.scope x)) plan.copied ≡ true }
    requires number { plan.number + 1 < 2 ^ 32 }
    ensures parts { OnOk result ((parts_of parts.new) ≡ first_turn_part (head_of d.now) (stmt_trees d.now.body.items) plan ∷ (parts_of parts.old)) }
    ensures kept { OnErr result ((parts_of parts.new) ≡ (parts_of parts.old)) }
    ensures room { HasRoom (memory_of state.old.store) (memory_of state.new.store) }
    ensures stand { OnOk result (list_all (λ x. (memory_of state.new.store).stands (cell_of state.old.scope x)) plan.copied ≡ true) }
    ensures scope { state.new.scope ≡ state.old.scope }
{
    open_copies(
        alloc,
        &mut state.store,
        &state.scope,
        plan.copied.as_slice(),
    )?;
    let first = plan.number + 1;
    parts.push(Part {
        stmts: &d.body,
        first,
        turn: Some(Turn {
            d,
            plan,
            earlier: 0,
        }),
    })
}

/// Ends an iteration of a DO: the next one begins, or the last one leaves the DO.
pub(crate) fn end_turn(
    alloc: Global,
    state: &mut State,
    parts: &mut Parts,
) -> Result<Done, NoMemory>
    requires ends { Ends (parts_of parts.old) }
    requires can { (table : Table) × (CanGo table (parts_of parts.old) state.old.scope × IsReady table state.old.scope (memory_of state.old.store)) }
    ensures does { IfOk result (λ d. (p : Setting) (c : ℕ) → IsDone (Steps.step p (parts_left (parts_of parts.old) state.old.scope) c (memory_of state.old.store).cells)
        (parts_left (parts_of parts.old) state.old.scope) (memory_of state.old.store).cells d (parts_left (parts_of parts.new) state.new.scope) (memory_of state.new.store).cells) }
    ensures kept { OnErr result ((state.new.scope ≡ state.old.scope) × ((parts_of parts.new) ≡ (parts_of parts.old)) × HasRoom (memory_of state.old.store) (memory_of state.new.store)) }
    ensures go { IfOpen result ((table : Table) → CanGo table (parts_of parts.old) state.old.scope → CanGo table (parts_of parts.new) state.new.scope) }
    ensures copies { IfOpen result (DoCopiesStand state.old.scope (memory_of state.old.store).stands → DoCopiesStand state.new.scope (memory_of state.new.store).stands) }
    ensures base { IfSafe result (base_of (parts_of parts.new) state.new.scope ≡ base_of (parts_of parts.old) state.old.scope) }
    ensures grown { IfSafe result (HasGrown (memory_of state.old.store) (memory_of state.new.store)) }
{
    match parts.turn() {
        None => return Ok(Done::Ended),
        Some(turn) => {
            if is_followed(turn) {
                match next_turn(alloc, state, turn) {
                    Ok(()) => {
                        parts.turn_on();
                        return Ok(Done::Went);
                    }
                    Err(error) => return Err(error),
                }
            }
            leave_loop(state, turn.d, &turn.plan);
            parts.pop();
            return Ok(Done::Went);
        }
    }
}

/// Whether another iteration follows.
fn is_followed(turn: &Turn) -> bool
    requires { turn.now.earlier < turn.now.plan.count }
    ensures { MatchBool result ((turn.now.earlier + 1 < turn.now.plan.count) × (turn.now.earlier + 1 < 2 ^ 64)) (turn.now.plan.count ≤ turn.now.earlier + 1) }
{
    let plan = &turn.plan;
    let count = plan.count;
    turn.earlier + 1 < count
}

/// Goes on from an iteration of a DO to the next one, and makes its copies. If memory runs out, the iteration is the
/// same.
fn next_turn(alloc: Global, state: &mut State, turn: &Turn) -> Result<(), NoMemory>
    requires plan { IsPlan (head_of turn.now.d.now) (stmt_trees turn.now.d.now.body.items) turn.now.plan }
    requires more { turn.now.earlier + 1 < turn.now.plan.count }
    requires inside { state.old.scope ≡ Loops.frame (entered_by (head_of turn.now.d.now) turn.now.plan 0) (turn.now.earlier + 1) ∷ outside state.old.scope }
    ensures ok { OnOk result (state.new.scope ≡ Loops.frame (entered_by (head_of turn.now.d.now) turn.now.plan 0) (turn.now.earlier + 2) ∷ outside state.old.scope) }
    ensures err { OnErr result (state.new.scope ≡ state.old.scope) }
    ensures room { HasRoom (memory_of state.old.store) (memory_of state.new.store) }
    ensures copies { OnOk result (DoCopiesStand (outside state.old.scope) (memory_of state.old.store).stands → DoCopiesStand state.new.scope (memory_of state.new.store).stands) }
{
    let plan = &turn.plan;
    let earlier = turn.earlier;
    let _count = plan.count;
    state
        .scope
        .turn(earlier + 2, plan.value_behind(earlier + 1));
    match open_copies(
        alloc,
        &mut state.store,
        &state.scope,
        plan.copied.as_slice(),
    ) {
        Ok(()) => return Ok(()),
        Err(error) => {
            state.scope.turn(earlier + 1, plan.value_behind(earlier));
            return Err(error);
        }
    }
}
