//! Entries of DO loops (ANSI X3.9-1978, section 11.10.3).

ghost use Rattle.std.specs.Prelude.{◌≡◌, ◌≤◌, ◌<◌, ◌^◌, ◌+ℤ◌, ◌-ℤ◌, ◌*ℤ◌, int_div, pos, unsigned_abs, true, ◌≢◌, ◌<ℤ◌, IfOk, IfErr, Ok, Err};
ghost use Rattle.ped_tree.specs.Views.{expr_tree, stmt_trees};
ghost use Rattle.ped_store.specs.Keeping.{memory_of};
ghost use Rattle.ped_eval.specs.ScopeViews.{names_at};
ghost use Rattle.ped_symbols.specs.RightUses.RightLoops.{step_is_right};
ghost use Rattle.ped_eval.specs.Evaluation.{◌>>>◌, given, number_behind};
ghost use Rattle.ped_store.specs.Storage as Storage;
ghost use Rattle.ped_eval.specs.Values.{value};
ghost use Rattle.ped_eval.specs.Loops as Loops;
ghost use Rattle.ped_eval.specs.Plans.{limits_view, IsPlanWithin, IsPlanBy, IsEntry};
ghost use Rattle.ped_tree.specs.Views.{head_of};
ghost use Rattle.ped_eval.specs.Follow.{Follow};
ghost use Rattle.ped_eval.specs.Noting.{accesses_by, HasNoted};
ghost use Rattle.ped_eval.specs.StatementNotes.{reads_noted};
ghost use Rattle.ped_eval.specs.Watched.{IfRan};

use crate::evaluation::value_of;
use crate::inner_names::{copied_names, inner_variables};
use crate::notes::Notes;
use crate::states::{RunError, State};
use crate::surroundings::Surroundings;
use crate::telling::tell_bounds;
use crate::watches::Watch;
use ped_base::{Names, NoMemory};
use ped_store::RunFault;
use ped_symbols::Symbols;
use ped_tree::constants::{Consts, constant};
use ped_tree::{Do, Expr};
use std::alloc::Global;

/// What stays the same in all iterations of a DO that has been entered.
#[derive(Drop)]
pub struct Plan {
    /// The statement number of the DO.
    pub number: u32,
    /// The initial value.
    pub first: i128,
    /// The increment.
    pub step: i128,
    /// How many iterations there are.
    pub count: u64,
    /// The names of which each iteration has its own copies.
    pub copied: Names,
    /// Of a PARALLEL DO, the variables of the DO loops in it, each once, in byte order.
    pub inner: Names,
    /// The number after the references in the bounds.
    pub behind: u32,
}

/// The initial and the terminal value of a DO.
#[derive(Clone, Copy)]
pub(crate) struct Limits {
    /// The initial value.
    pub first: i128,
    /// The terminal value.
    pub last: i128,
}

impl Plan {
    /// The value that the variable has after this many iterations.
    pub fn value_behind(&self, turns: u64) -> i128
        requires first { unsigned_abs self.now.first ≤ 2 ^ 62 }
        requires step { unsigned_abs self.now.step ≤ 2 ^ 31 }
        ensures { result ≡ self.now.first +ℤ pos turns *ℤ self.now.step }
    {
        self.first + i128::from(turns) * self.step
    }
}

/// Enters a DO with this number: its limits are evaluated and their ranges tested. A watch gets what they read.
///
/// # Errors
///
/// The first fault of a limit, out of range where it lies beyond 2^62, or `NoMemory`.
pub fn plan_of<W: Watch>(
    alloc: Global,
    symbols: &Symbols,
    state: &State,
    watch: &mut W,
    d: &Do,
    number: u32,
) -> Result<Plan, RunError>
    requires { step_is_right symbols.now.constants (expr_tree d.now.step) ≡ true }
    ensures entry { IsEntry symbols.now number (names_at (memory_of state.now.store) state.now.scope symbols.now.constants) (memory_of state.now.store).cells (head_of d.now) (stmt_trees d.now.body.items) result }
    ensures behind { IfOk result (λ plan. plan.behind ≡ number_behind 1 (Loops.limits (names_at (memory_of state.now.store) state.now.scope symbols.now.constants) (head_of d.now) (memory_of state.now.store).cells).seen) }
    ensures told { IfRan result (Follow W.follows watch.old (accesses_by number state.now.scope (reads_noted (Loops.limits (names_at (memory_of state.now.store) state.now.scope symbols.now.constants) (head_of d.now) (memory_of state.now.store).cells).seen)) watch.new) }
{
    let mut notes = Notes::from_reference(alloc, 1);
    let limits = limits_of(symbols, state, d, &mut notes);
    let behind = tell_bounds(alloc, watch, &state.scope, number, &notes)?;
    plan_by(alloc, symbols, d, number, limits, behind)
}

/// The plan of a DO whose limits have come to this.
fn plan_by(
    alloc: Global,
    symbols: &Symbols,
    d: &Do,
    number: u32,
    limits: Result<Limits, RunFault>,
    behind: u32,
) -> Result<Plan, RunError>
    requires step { step_is_right symbols.now.constants (expr_tree d.now.step) ≡ true }
    requires bounds { IfOk limits (λ l. (Loops.is_bound l.first ≡ true) × (Loops.is_bound l.last ≡ true)) }
    ensures plan { IsPlanBy symbols.now number (head_of d.now) (stmt_trees d.now.body.items) limits result }
    ensures behind { IfOk result (λ plan. plan.behind ≡ behind) }
{
    match limits {
        Ok(limits) => {
            let plan = plan_within(alloc, symbols.consts(), d, number, &limits, behind)?;
            return Ok(plan);
        }
        Err(fault) => return Err(RunError::Fault {
            fault,
            statement: number,
        }),
    }
}

/// The limits of a DO: the first is evaluated and its range tested, and then the other. Notes are made of what they read.
fn limits_of(
    symbols: &Symbols,
    state: &State,
    d: &Do,
    notes: &mut Notes,
) -> Result<Limits, RunFault>
    ensures ok { IfOk result (λ l. (Loops.limits (names_at (memory_of state.now.store) state.now.scope symbols.now.constants) (head_of d.now) (memory_of state.now.store).cells).result ≡ Ok (limits_view l)) }
    ensures bounds { IfOk result (λ l. (Loops.is_bound l.first ≡ true) × (Loops.is_bound l.last ≡ true)) }
    ensures err { IfErr result (λ n. (Loops.limits (names_at (memory_of state.now.store) state.now.scope symbols.now.constants) (head_of d.now) (memory_of state.now.store).cells).result ≡ Err n) }
    ensures noted { HasNoted notes.old (Loops.limits (names_at (memory_of state.now.store) state.now.scope symbols.now.constants) (head_of d.now) (memory_of state.now.store).cells).seen notes.new }
{
    match limit_of(symbols, state, &d.first, notes) {
        Ok(first) => match limit_of(symbols, state, &d.last, notes) {
            Ok(last) => return Ok(Limits { first, last }),
            Err(fault) => return Err(fault),
        },
        Err(fault) => return Err(fault),
    }
}

/// A limit of a DO.
fn limit_of(symbols: &Symbols, state: &State, e: &Expr, notes: &mut Notes) -> Result<i128, RunFault>
    ensures value { result ≡ (value (names_at (memory_of state.now.store) state.now.scope symbols.now.constants) (expr_tree e.now) (memory_of state.now.store).cells >>> λ u. given (Loops.in_bounds u)).result }
    ensures bound { IfOk result (λ u. Loops.is_bound u ≡ true) }
    ensures noted { HasNoted notes.old (value (names_at (memory_of state.now.store) state.now.scope symbols.now.constants) (expr_tree e.now) (memory_of state.now.store).cells).seen notes.new }
{
    let around = Surroundings {
        store: &state.store,
        scope: &state.scope,
        consts: symbols.consts(),
    };
    match value_of(e, &around, notes) {
        Ok(value) => return in_bounds(value),
        Err(fault) => return Err(fault),
    }
}

/// The number, where a limit of a DO may have it.
fn in_bounds(value: i128) -> Result<i128, RunFault>
    ensures result { result ≡ Loops.in_bounds value }
    ensures bound { IfOk result (λ u. Loops.is_bound u ≡ true) }
{
    if is_bound(value) {
        Ok(value)
    } else {
        Err(RunFault::OUT_OF_RANGE)
    }
}

/// Whether a limit of a DO may have this value.
fn is_bound(value: i128) -> bool
    ensures { result ≡ Loops.is_bound value }
{
    -(1 << 62) <= value && value <= 1 << 62
}

/// The plan of a DO with these limits.
fn plan_within(
    alloc: Global,
    consts: &Consts,
    d: &Do,
    number: u32,
    limits: &Limits,
    behind: u32,
) -> Result<Plan, NoMemory>
    requires step { step_is_right consts.now (expr_tree d.now.step) ≡ true }
    requires first { Loops.is_bound limits.now.first ≡ true }
    requires last { Loops.is_bound limits.now.last ≡ true }
    ensures plan { IfOk result (λ plan. IsPlanWithin consts.now number (head_of d.now) (stmt_trees d.now.body.items) (limits_view limits.now) plan) }
    ensures behind { IfOk result (λ plan. plan.behind ≡ behind) }
{
    let step = step_of(consts, d);
    let count = iteration_count(limits, step);
    let inner = inner_variables(alloc, d)?;
    let copied = copied_names(alloc, d, inner.as_slice())?;
    Ok(Plan {
        number,
        first: limits.first,
        step,
        count,
        copied,
        inner,
        behind,
    })
}

/// The increment of a DO.
fn step_of(consts: &Consts, d: &Do) -> i128
    requires { step_is_right consts.now (expr_tree d.now.step) ≡ true }
    ensures step { result ≡ Loops.increment consts.now (head_of d.now) }
    ensures some { result ≢ pos 0 }
    ensures small { unsigned_abs result ≤ 2 ^ 31 }
{
    match constant(&d.step, consts) {
        Some(step) => return step,
        None => return 1,
    }
}

/// The iteration count (ANSI X3.9-1978, section 11.10.3).
fn iteration_count(limits: &Limits, step: i128) -> u64
    requires first { Loops.is_bound limits.now.first ≡ true }
    requires last { Loops.is_bound limits.now.last ≡ true }
    requires some { step ≢ pos 0 }
    requires small { unsigned_abs step ≤ 2 ^ 31 }
    ensures { result ≡ Loops.iteration_count limits.now.first limits.now.last step }
{
    natural(quotient(span(limits, step), step))
}

/// How far the terminal value of a DO lies beyond the initial one, and one increment further.
fn span(limits: &Limits, step: i128) -> i128
    requires first { Loops.is_bound limits.now.first ≡ true }
    requires last { Loops.is_bound limits.now.last ≡ true }
    requires small { unsigned_abs step ≤ 2 ^ 31 }
    ensures value { result ≡ limits.now.last -ℤ limits.now.first +ℤ step }
    ensures small { unsigned_abs result < 2 ^ 64 }
{
    limits.last - limits.first + step
}

/// `n / d`, truncated towards zero.
fn quotient(n: i128, d: i128) -> i128
    requires dividend { unsigned_abs n < 2 ^ 64 }
    requires divisor { d ≢ pos 0 }
    ensures value { result ≡ int_div n d }
    ensures small { result <ℤ pos (2 ^ 64) }
{
    n / d
}

/// A whole number that isn't negative, 0 for one that is.
fn natural(n: i128) -> u64
    requires { n <ℤ pos (2 ^ 64) }
    ensures { result ≡ Storage.natural n }
{
    if n <= 0 { 0 } else { n as u64 }
}
