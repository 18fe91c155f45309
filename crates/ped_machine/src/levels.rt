//! The iterations of PARALLEL DO loops that have been started.

ghost use Rattle.std.specs.Prelude.{◌≡◌, ◌<◌, ◌+◌, ◌^◌, ◌∷◌, length, [], None, IfOk};
ghost use Rattle.ped_tree.specs.Views.{head_of, stmt_trees};
ghost use Rattle.ped_interleavings.specs.ped_eval.specs.Loops as Loops;
ghost use Rattle.ped_interleavings.specs.ped_eval.specs.ScopeViews.{frame_view};
ghost use Rattle.ped_machine.specs.Parts.{parts_of};
ghost use Rattle.ped_interleavings.specs.ped_eval.specs.Plans.{entered_by, IsPlan};

use crate::parts::{Part, Parts};
use crate::rests::Rest;
use crate::steps::Done;
use crate::turns::{drop_copies, frame_of, open_copies};
use crate::works::Work;
use ped_base::{Name, NoMemory};
use ped_eval::{Frame, Plan, Scope, State};
use ped_store::Store;
use ped_symbols::Symbols;
use ped_tree::Do;
use std::alloc::Global;

/// An iteration of a PARALLEL DO that has been started.
#[derive(Drop)]
pub struct Level<'a, C> {
    /// The iterations around its place.
    pub scope: Scope,
    /// The rest of it.
    pub rest: Rest<'a, C>,
}

impl<'a, C: Work<'a>> Work<'a> for Level<'a, C> {
    ghost use Rattle.ped_machine.specs.Growth.{level_grows};
    ghost use Rattle.ped_machine.specs.Levels.{level_left, level_base, IsSoundLevel};

    ghost left = { level_left C.left };

    ghost base = { level_base };

    ghost sound = { IsSoundLevel C.left C.base C.sound };

    ghost grows = { level_grows C.left C.base C.sound C.grows };

    fn start(
        alloc: Global,
        state: &mut State,
        d: &'a Do,
        plan: &Plan,
        earlier: u64,
    ) -> Result<Level<'a, C>, NoMemory> {
        let scope = inner_scope(alloc, &state.scope, d, plan, earlier)?;
        match open_copies(alloc, &mut state.store, &scope, plan.copied.as_slice()) {
            Ok(()) => return with_body(alloc, scope, d, plan),
            Err(error) => return Err(error),
        }
    }

    fn is_over(&mut self) -> bool {
        self.rest.is_over()
    }

    fn step(
        &mut self,
        alloc: Global,
        symbols: &Symbols,
        state: &mut State,
        choice: u64,
    ) -> Result<Done, NoMemory> {
        std::mem::swap(&mut self.scope, &mut state.scope);
        let answer = self.rest.step(alloc, symbols, state, choice);
        std::mem::swap(&mut self.scope, &mut state.scope);
        answer
    }

    fn leave(&self, state: &mut State, names: &[Name]) {
        drop_copies(&mut state.store, &self.scope, names)
    }

    fn forget(&mut self, alloc: Global, store: &mut Store) {
        self.rest.forget(alloc, store, &self.scope)
    }
}

/// The iterations around a place, and an iteration of a DO there.
pub(crate) fn inner_scope(
    alloc: Global,
    outer: &Scope,
    d: &Do,
    plan: &Plan,
    earlier: u64,
) -> Result<Scope, NoMemory>
    requires plan { IsPlan (head_of d.now) (stmt_trees d.now.body.items) plan.now }
    requires earlier { earlier < plan.now.count }
    requires few { length outer.now < 6 }
    ensures { IfOk result (λ scope. scope ≡ Loops.frame (entered_by (head_of d.now) plan.now 0) (earlier + 1) ∷ outer.now) }
{
    match frame_of(alloc, d, plan, earlier) {
        Ok(frame) => return entered(alloc, outer, frame),
        Err(error) => return Err(error),
    }
}

/// The iterations around a place, and one more.
fn entered(alloc: Global, outer: &Scope, frame: Frame) -> Result<Scope, NoMemory>
    requires { length outer.now < 6 }
    ensures { IfOk result (λ scope. scope ≡ frame_view frame ∷ outer.now) }
{
    match outer.copy(alloc) {
        Ok(scope) => {
            let mut inner = scope;
            match inner.enter(frame) {
                Ok(()) => return Ok(inner),
                Err(error) => return Err(error),
            }
        }
        Err(error) => return Err(error),
    }
}

/// The iteration of a DO with all its body left.
fn with_body<'a, C: Work<'a>>(
    alloc: Global,
    scope: Scope,
    d: &'a Do,
    plan: &Plan,
) -> Result<Level<'a, C>, NoMemory>
    requires { plan.now.number + 1 < 2 ^ 32 }
    ensures scope { IfOk result (λ w. w.scope ≡ scope) }
    ensures parts { IfOk result (λ w. parts_of w.rest.parts ≡ record { stmts = stmt_trees d.now.body.items; first = plan.now.number + 1; turn = None } ∷ []) }
    ensures inner { IfOk result (λ w. w.rest.inner ≡ None) }
{
    let mut parts = Parts::new(alloc);
    match parts.push(Part {
        stmts: &d.body,
        first: plan.number + 1,
        turn: None,
    }) {
        Ok(()) => return Ok(Level {
            scope,
            rest: Rest { parts, inner: None },
        }),
        Err(error) => return Err(error),
    }
}
