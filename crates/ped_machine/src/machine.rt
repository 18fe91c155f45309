//! The machine.

ghost use Rattle.std.specs.Prelude.{◌≡◌, ◌<◌, ◌∷◌, [], ℕ, List, true, None, drop, Ok, IfOk, OnErr, if◌then◌else◌};
ghost use Rattle.ped_tree.specs.Views.{program_tree, stmt_trees};
ghost use Rattle.ped_symbols.specs.Kinds.{table_of};
ghost use Rattle.ped_symbols.specs.NameRefusals.{IsValid};
ghost use Rattle.ped_interleavings.specs.ped_eval.specs.Outcomes.{setting_of};
ghost use Rattle.ped_interleavings.specs.ped_eval.specs.OutcomeViews.{outcome_view};
ghost use Rattle.ped_interleavings.specs.Lefts as Lefts;
ghost use Rattle.ped_interleavings.specs.Steps as Steps;
ghost use Rattle.ped_interleavings.specs.Interleavings.{IsInterleaved, IsInterleavedFrom, at_start, choice};
ghost use Rattle.ped_interleavings.specs.Weights.{left_weight};
ghost use Rattle.ped_machine.specs.Answers.{is_last};
ghost use Rattle.ped_machine.specs.Naming.{IsApart, IsForgotten};
ghost use Rattle.ped_machine.specs.Parts.{parts_of};
ghost use Rattle.ped_machine.specs.Machines.{standing, IsSameRun, IsStepBy, IsOutcomeBy, IfFaultless, ReachesSome};
ghost use Rattle.ped_machine.specs.Roots.{held, IsSafe};
ghost use Rattle.ped_machine.specs.declared.steps.Step.TheVariants as step;

use crate::levels::Level;
use crate::parts::{Part, Parts};
use crate::rests::Rest;
use crate::steps::{Step, ends_run, is_last, step_by};
use crate::works::Never;
use ped_base::NoMemory;
use ped_eval::{Outcome, State, ended, start};
use ped_interleavings::lighter;
use ped_symbols::Symbols;
use ped_symbols::right_uses::right_where_valid;
use ped_tree::Program;
use std::alloc::Global;

/// An iteration of an outermost PARALLEL DO: DO loops are nested at most six deep.
type Outermost<'a> = Level<'a, Level<'a, Level<'a, Level<'a, Level<'a, Level<'a, Never>>>>>>;

/// A run of a program whose PARALLEL DO loops go on in any order, as choices pick it. Contracts see the program, the
/// rest of the run, and its store. Iterations that wait or are finished take no memory, but private copies that hold
/// something stay until the run ends.
#[derive(Drop)]
pub struct Machine<'a> {
    alloc: Global,
    program: &'a Program,
    symbols: &'a Symbols,
    state: State,
    rest: Rest<'a, Outermost<'a>>,
    is_over: bool,
}

impl<'a> Machine<'a> {
    /// A machine before the first step of a valid program, whose names these are, on the lines of its data (ANSI
    /// X3.9-1978, section 2.4.1; this project).
    ///
    /// # Errors
    ///
    /// Out of memory.
    pub fn new(
        alloc: Global,
        program: &'a Program,
        symbols: &'a Symbols,
        input: &[u8],
    ) -> Result<Machine<'a>, NoMemory>
        requires valid { IsValid (program_tree program.now) }
        requires symbols { symbols.now ≡ table_of (program_tree program.now) }
        ensures safe { IfOk result IsSafe }
        ensures tree { IfOk result (λ m. (held m).tree ≡ program_tree program.now) }
        ensures stands { IfOk result (λ m. (choices : List ℕ) → standing (held m) choices ≡ at_start (program_tree program.now) input.now choices) }
    {
        right_where_valid();
        let rest = whole(alloc, program)?;
        let state = start(alloc, symbols, input)?;
        Ok(Machine {
            alloc,
            program,
            symbols,
            state,
            rest,
            is_over: false,
        })
    }

    /// Whether the next step takes a choice: it is one of an iteration of a PARALLEL DO.
    pub fn wants_choice(&self) -> bool
        requires { IsSafe self.now }
        ensures { result ≡ Lefts.wants_choice (held self.now).left }
    {
        if self.is_over {
            return false;
        }
        self.rest.wants_choice()
    }

    /// Does the next step: of an open PARALLEL DO with N iterations, the choice c picks the iteration c mod N or the
    /// first after it that isn't finished, wrapping around, and c div N picks on inside of it. After a fault nothing is
    /// left.
    ///
    /// # Errors
    ///
    /// Out of memory. Then the rest is the same, and the store is the same.
    pub fn step(&mut self, choice: u64) -> Result<Step, NoMemory>
        requires { IsSafe self.old }
        ensures does { IfOk result (λ r. IsStepBy (Steps.step (setting_of (held self.old).tree) (held self.old).left choice (held self.old).store) (held self.old) r (held self.new)) }
        ensures kept { OnErr result (IsSameRun (held self.old) (held self.new)) }
        ensures safe { IfFaultless result (IsSafe self.new) }
        ensures tree { (held self.new).tree ≡ (held self.old).tree }
        ensures lighter { result ≡ Ok step.Went → left_weight (held self.new).left < left_weight (held self.old).left }
    {
        lighter();
        if self.is_over {
            return Ok(Step::Ended);
        }
        match self
            .rest
            .step(self.alloc, self.symbols, &mut self.state, choice)
        {
            Ok(done) => {
                self.is_over = ends_run(&done);
                return Ok(step_by(&done));
            }
            Err(error) => return Err(error),
        }
    }

    /// Goes on with these choices, and then with 0, until the program ends.
    ///
    /// # Errors
    ///
    /// Out of memory. Then the run is where steps with these choices have brought it, or with all of them and zeros
    /// after them.
    pub fn run(&mut self, choices: &[u64]) -> Result<Outcome, NoMemory>
        requires { IsSafe self.old }
        ensures outcome { IfOk result (λ o. IsInterleavedFrom (held self.old).tree (standing (held self.old) choices.now) (outcome_view o)) }
        ensures reached { OnErr result (ReachesSome (held self.old) choices.now (held self.new)) }
        ensures safe { OnErr result (IsSafe self.new) }
        ensures tree { (held self.new).tree ≡ (held self.old).tree }
    {
        let mut left = choices;
        loop {
            let choice = first_of(left);
            left = choices_behind(self.wants_choice(), left);
            match self.step(choice) {
                Ok(step) => {
                    if is_last(&step) {
                        return self.outcome(&step);
                    }
                }
                Err(error) => return Err(error),
            }
        }
    }

    /// Goes on with these choices, and then with 0, until the program ends. Copies of iterations that have ended are
    /// forgotten, so that the store isn't that of the run any more.
    fn run_forgetting(&mut self, choices: &[u64]) -> Result<Outcome, NoMemory>
        requires safe { IsSafe self.old }
        requires apart { IsApart (held self.old).left }
        ensures { IfOk result (λ o. IsInterleavedFrom (held self.old).tree (standing (held self.old) choices.now) (outcome_view o)) }
    {
        let mut left = choices;
        loop {
            let pick = first_of(left);
            left = choices_behind(self.wants_choice(), left);
            match self.step(pick) {
                Ok(step) => {
                    if is_last(&step) {
                        return self.outcome(&step);
                    }
                    self.forget();
                }
                Err(error) => return Err(error),
            }
        }
    }

    /// Drops the copies of the iterations that the latest step has finished.
    fn forget(&mut self)
        requires { IsSafe self.old }
        ensures safe { IsSafe self.new }
        ensures tree { (held self.new).tree ≡ (held self.old).tree }
        ensures left { (held self.new).left ≡ (held self.old).left }
        ensures cells { IsForgotten (held self.old).left (held self.old).store (held self.new).store }
    {
        if self.is_over {
            return;
        }
        self.rest
            .forget(self.alloc, &mut self.state.store, &self.state.scope)
    }

    /// The outcome of a run whose last step has answered so.
    fn outcome(&self, answer: &Step) -> Result<Outcome, NoMemory>
        requires last { is_last answer.now ≡ true }
        requires safe { IfFaultless {E = ⊥} (Ok answer.now) (IsSafe self.now) }
        ensures outcome { IfOk result (λ o. IsOutcomeBy answer.now (held self.now) (outcome_view o)) }
        ensures ended { OnErr result (answer.now ≡ step.Ended) }
    {
        match answer {
            Step::Fault { fault, statement } => return Ok(Outcome::Fault {
                fault: *fault,
                statement: *statement,
            }),
            Step::Went | Step::Ended => {
                return ended(self.alloc, self.program, &self.state.store);
            }
        }
    }
}

/// The outcome of a valid program, whose names these are, with these choices, and then with 0, on the lines of its data.
/// It takes memory for the iterations that have started and haven't ended, and for no others.
///
/// # Errors
///
/// Out of memory.
pub fn run_by_choices(
    alloc: Global,
    program: &Program,
    symbols: &Symbols,
    input: &[u8],
    choices: &[u64],
) -> Result<Outcome, NoMemory>
    requires valid { IsValid (program_tree program.now) }
    requires symbols { symbols.now ≡ table_of (program_tree program.now) }
    ensures { IfOk result (λ o. IsInterleaved (program_tree program.now) input.now choices.now (outcome_view o)) }
{
    let mut machine = Machine::new(alloc, program, symbols, input)?;
    machine.run_forgetting(choices)
}

/// A program of which all is left.
fn whole<'a>(alloc: Global, program: &'a Program) -> Result<Rest<'a, Outermost<'a>>, NoMemory>
    ensures parts { IfOk result (λ r. parts_of r.parts ≡ record { stmts = stmt_trees program.now.body.items; first = 1; turn = None } ∷ []) }
    ensures inner { IfOk result (λ r. r.inner ≡ None) }
{
    let mut parts = Parts::new(alloc);
    parts.push(Part {
        stmts: &program.body,
        first: 1,
        turn: None,
    })?;
    Ok(Rest { parts, inner: None })
}

/// The first choice, 0 where there is none.
fn first_of(choices: &[u64]) -> u64
    ensures { result ≡ choice choices.now }
{
    match choices.first() {
        Some(first) => *first,
        None => 0,
    }
}

/// The choices after a step that takes one or none.
fn choices_behind(takes: bool, choices: &[u64]) -> &[u64]
    ensures { result.now ≡ (if takes then drop 1 choices.now else choices.now) }
{
    if takes {
        return behind_first(choices);
    }
    choices
}

/// The choices after the first.
fn behind_first(choices: &[u64]) -> &[u64]
    ensures { result.now ≡ drop 1 choices.now }
{
    match choices.split_first() {
        Some((_, rest)) => rest,
        None => &[],
    }
}
