//! Exits of DO loops (ANSI X3.9-1978, section 11.10.7).

ghost use Rattle.std.specs.Prelude.{◌≡◌, ◌<◌, length, true, IsTrue};
ghost use Rattle.std.specs.List.{list_all};
ghost use Rattle.ped_tree.specs.Views.{stmt_trees};
ghost use Rattle.ped_store.specs.Stores.{Undefined};
ghost use Rattle.ped_store.specs.Memories.{with_content};
ghost use Rattle.ped_store.specs.Keeping.{memory_of};
ghost use Rattle.ped_eval.specs.Scopes.{cell_of};
ghost use Rattle.ped_eval.specs.ScopeViews.{outside};
ghost use Rattle.ped_eval.specs.Loops.{left_in_variable};
ghost use Rattle.ped_eval.specs.Plans.{entered_by, IsPlan};
ghost use Rattle.ped_tree.specs.Views.{head_of};
ghost use Rattle.ped_eval.specs.Turns.{undefined_in, exited};

use crate::plans::Plan;
use crate::states::State;
use ped_base::Name;
use ped_tree::Do;

/// Leaves a DO after its iterations: its variable gets its last value, or none after a PARALLEL DO, and what is
/// private to its iterations becomes undefined.
pub fn leave_loop(state: &mut State, d: &Do, plan: &Plan)
    requires plan { IsPlan (head_of d.now) (stmt_trees d.now.body.items) plan.now }
    requires inside { 0 < length state.old.scope }
    requires variable { IsTrue ((memory_of state.old.store).stands (cell_of (outside state.old.scope) d.now.variable)) }
    requires private { list_all (λ x. (memory_of state.old.store).stands (cell_of (outside state.old.scope) x)) d.now.private ≡ true }
    requires inner { list_all (λ x. (memory_of state.old.store).stands (cell_of (outside state.old.scope) x)) plan.now.inner ≡ true }
    ensures memory { memory_of state.new.store ≡ exited (entered_by (head_of d.now) plan.now 0) (outside state.old.scope) (memory_of state.old.store) }
    ensures scope { state.new.scope ≡ outside state.old.scope }
{
    state.scope.leave();
    write_exit(state, d, plan);
}

/// Writes what the exit of a DO writes, outside of it.
pub fn write_exit(state: &mut State, d: &Do, plan: &Plan)
    requires plan { IsPlan (head_of d.now) (stmt_trees d.now.body.items) plan.now }
    requires variable { IsTrue ((memory_of state.old.store).stands (cell_of state.old.scope d.now.variable)) }
    requires private { list_all (λ x. (memory_of state.old.store).stands (cell_of state.old.scope x)) d.now.private ≡ true }
    requires inner { list_all (λ x. (memory_of state.old.store).stands (cell_of state.old.scope x)) plan.now.inner ≡ true }
    ensures memory { memory_of state.new.store ≡ exited (entered_by (head_of d.now) plan.now 0) state.old.scope (memory_of state.old.store) }
    ensures scope { state.new.scope ≡ state.old.scope }
{
    leave_variable(state, d, plan);
    undefine_all(state, d.private.as_slice());
    undefine_all(state, plan.inner.as_slice());
}

/// Writes the variable of a DO after its iterations.
fn leave_variable(state: &mut State, d: &Do, plan: &Plan)
    requires plan { IsPlan (head_of d.now) (stmt_trees d.now.body.items) plan.now }
    requires variable { IsTrue ((memory_of state.old.store).stands (cell_of state.old.scope d.now.variable)) }
    ensures memory { memory_of state.new.store ≡ with_content (cell_of state.old.scope d.now.variable) (left_in_variable (entered_by (head_of d.now) plan.now 0)) (memory_of state.old.store) }
    ensures scope { state.new.scope ≡ state.old.scope }
{
    let cell = state.scope.cell(&d.variable);
    if d.parallel {
        state.store.undefine(&cell);
        return;
    }
    let value = plan.value_behind(plan.count);
    state.store.set_index(&cell, value);
}

/// Makes scalars undefined.
fn undefine_all(state: &mut State, names: &[Name])
    requires { list_all (λ x. (memory_of state.old.store).stands (cell_of state.old.scope x)) names.now ≡ true }
    ensures memory { memory_of state.new.store ≡ undefined_in state.old.scope names.now (memory_of state.old.store) }
    ensures scope { state.new.scope ≡ state.old.scope }
{
    for name in names {
        let cell = state.scope.cell(name);
        state.store.undefine(&cell);
    }
}
