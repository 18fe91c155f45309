//! The iterations of DO loops: their scopes and their private copies.

ghost use Rattle.std.specs.Prelude.{◌≡◌, ◌<◌, ◌+◌, ◌∷◌, length, true, IfOk, OnOk};
ghost use Rattle.std.specs.List.{list_all};
ghost use Rattle.ped_tree.specs.Views.{stmt_trees};
ghost use Rattle.ped_store.specs.Keeping.{memory_of};
ghost use Rattle.ped_store.specs.Memories.{with_copy, without_copy};
ghost use Rattle.ped_eval.specs.Scopes.{cell_of};
ghost use Rattle.ped_eval.specs.ScopeViews.{frame_view, outside};
ghost use Rattle.ped_eval.specs.Loops as Loops;
ghost use Rattle.ped_eval.specs.Agreement.{is_copy};
ghost use Rattle.ped_eval.specs.Plans.{entered_by, IsPlan};
ghost use Rattle.ped_tree.specs.Views.{head_of};
ghost use Rattle.ped_eval.specs.Turns.{IsInside, with_copies, without_copies};

use crate::plans::Plan;
use crate::scopes::Frame;
use crate::states::State;
use ped_base::{Name, NoMemory};
use ped_tree::{Do, copy_names};
use std::alloc::Global;

/// Goes into a DO, before its first iteration.
pub fn enter_loop(alloc: Global, state: &mut State, d: &Do, plan: &Plan) -> Result<(), NoMemory>
    requires plan { IsPlan (head_of d.now) (stmt_trees d.now.body.items) plan.now }
    requires few { length state.old.scope < 6 }
    ensures scope { OnOk result (state.new.scope ≡ Loops.frame (entered_by (head_of d.now) plan.now 0) 0 ∷ state.old.scope) }
    ensures store { state.new.store ≡ state.old.store }
{
    let frame = frame_of(alloc, d, plan)?;
    state.scope.enter(frame)
}

/// What stands for an iteration of a DO before its first one.
fn frame_of(alloc: Global, d: &Do, plan: &Plan) -> Result<Frame, NoMemory>
    requires { IsPlan (head_of d.now) (stmt_trees d.now.body.items) plan.now }
    ensures { IfOk result (λ f. frame_view f ≡ Loops.frame (entered_by (head_of d.now) plan.now 0) 0) }
{
    let private = copy_names(&plan.copied, alloc)?;
    Ok(Frame {
        statement: plan.number,
        parallel: d.parallel,
        number: 0,
        value: plan.value_behind(0),
        variable: d.variable,
        private,
    })
}

/// Goes on from an iteration of a DO to that before which there are this many, and makes its copies.
pub fn open_turn(
    alloc: Global,
    state: &mut State,
    d: &Do,
    plan: &Plan,
    earlier: u64,
) -> Result<(), NoMemory>
    requires plan { IsPlan (head_of d.now) (stmt_trees d.now.body.items) plan.now }
    requires earlier { earlier < plan.now.count }
    requires inside { IsInside (entered_by (head_of d.now) plan.now 0) state.old.scope }
    ensures scope { OnOk result (state.new.scope ≡ Loops.frame (entered_by (head_of d.now) plan.now 0) (earlier + 1) ∷ outside state.old.scope) }
    ensures copies { OnOk result (memory_of state.new.store ≡ with_copies state.new.scope plan.now.copied (memory_of state.old.store)) }
{
    state.scope.turn(earlier + 1, plan.value_behind(earlier));
    open_copies(alloc, state, plan.copied.as_slice())
}

/// Makes the copies of these names, which are private to the iterations around the place.
fn open_copies(alloc: Global, state: &mut State, names: &[Name]) -> Result<(), NoMemory>
    requires { list_all (λ x. is_copy (cell_of state.old.scope x)) names.now ≡ true }
    ensures copies { OnOk result (memory_of state.new.store ≡ with_copies state.old.scope names.now (memory_of state.old.store)) }
    ensures scope { state.new.scope ≡ state.old.scope }
{
    for place in 0..names.len() {
        open_one(alloc, state, &names[place], place)?;
    }
    Ok(())
}

/// Makes the copy of this name, which probably is at this place among those that are private to the innermost
/// iteration.
#[inline(never)]
fn open_one(alloc: Global, state: &mut State, name: &Name, place: usize) -> Result<(), NoMemory>
    requires { is_copy (cell_of state.old.scope name.now) ≡ true }
    ensures copy { OnOk result (memory_of state.new.store ≡ with_copy (cell_of state.old.scope name.now) (memory_of state.old.store)) }
    ensures scope { state.new.scope ≡ state.old.scope }
{
    let cell = state.scope.cell_at(name, place);
    state.store.open_copy(alloc, &cell)
}

/// Drops the copies of these names, which are private to the iterations around the place.
pub fn close_copies(state: &mut State, names: &[Name])
    requires { list_all (λ x. is_copy (cell_of state.old.scope x)) names.now ≡ true }
    ensures copies { memory_of state.new.store ≡ without_copies state.old.scope names.now (memory_of state.old.store) }
    ensures scope { state.new.scope ≡ state.old.scope }
{
    for place in 0..names.len() {
        close_one(state, &names[place], place);
    }
}

/// Drops the copy of this name, which probably is at this place among those that are private to the innermost
/// iteration.
#[inline(never)]
fn close_one(state: &mut State, name: &Name, place: usize)
    requires { is_copy (cell_of state.old.scope name.now) ≡ true }
    ensures copy { memory_of state.new.store ≡ without_copy (cell_of state.old.scope name.now) (memory_of state.old.store) }
    ensures scope { state.new.scope ≡ state.old.scope }
{
    let cell = state.scope.cell_at(name, place);
    state.store.close_copy(&cell);
}
