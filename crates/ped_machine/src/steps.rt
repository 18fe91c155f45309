//! The results of steps.

ghost use Rattle.std.specs.Prelude.{◌≡◌};
ghost use Rattle.ped_machine.specs.Answers.{ends_run, is_last, step_by};

use ped_store::RunFault;

/// The result of a step of a machine.
#[derive(Clone, Copy)]
pub enum Step {
    /// An act has been done.
    Went,
    /// Nothing was left.
    Ended,
    /// A fault of the program.
    Fault {
        /// What it is.
        fault: RunFault,
        /// The statement that met it.
        statement: u32,
    },
}

/// The result of a step of a part of a machine.
#[derive(Clone, Copy)]
pub enum Done {
    /// An act has been done.
    Went,
    /// A STOP has been done, which ends the program.
    Halted,
    /// Nothing was left.
    Ended,
    /// A fault of the program.
    Fault {
        /// What it is.
        fault: RunFault,
        /// The statement that met it.
        statement: u32,
    },
}

/// Whether the run has ended by a step of what was left of it, so that nothing is left.
pub(crate) fn ends_run(done: &Done) -> bool
    ensures { result ≡ ends_run done.now }
{
    match done {
        Done::Went | Done::Ended => return false,
        Done::Halted
        | Done::Fault {
            fault: _,
            statement: _,
        } => return true,
    }
}

/// The step of a run, by that of the rest: a STOP is an act as others are.
pub(crate) fn step_by(done: &Done) -> Step
    ensures { result ≡ step_by done.now }
{
    match done {
        Done::Went | Done::Halted => return Step::Went,
        Done::Ended => return Step::Ended,
        Done::Fault { fault, statement } => return Step::Fault {
            fault: *fault,
            statement: *statement,
        },
    }
}

/// Whether no step follows.
pub(crate) fn is_last(step: &Step) -> bool
    ensures { result ≡ is_last step.now }
{
    match step {
        Step::Went => return false,
        Step::Ended
        | Step::Fault {
            fault: _,
            statement: _,
        } => return true,
    }
}
