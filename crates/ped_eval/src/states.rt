//! What a run keeps, and how it continues.

use crate::scopes::Scope;
use ped_base::NoMemory;
use ped_store::{RunFault, Store};

/// What a run keeps at a place.
#[derive(Drop)]
pub struct State {
    /// What the cells hold.
    pub store: Store,
    /// The iterations around the place.
    pub scope: Scope,
}

/// How statements that have been run end.
#[derive(Clone, Copy)]
pub enum Flow {
    /// The run goes on after them.
    Going,
    /// A STOP has ended it.
    Stopped,
}

/// Why a run has broken off.
#[derive(Clone, Copy)]
pub enum RunError {
    /// By a fault of the program.
    Fault {
        /// What it is.
        fault: RunFault,
        /// The statement that met it.
        statement: u32,
    },
    /// Out of memory.
    NoMemory,
}

impl From<NoMemory> for RunError {
    ghost use Rattle.std.specs.Prelude.{◌≡◌};
    ghost use Rattle.ped_eval.specs.declared.states.RunError.TheVariants as variant;

    ghost from_gives = { λ _ e. e ≡ variant.NoMemory };

    fn from(_: NoMemory) -> RunError {
        RunError::NoMemory
    }
}
