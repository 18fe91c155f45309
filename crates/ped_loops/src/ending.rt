//! The end of a step that dependences may forbid.

ghost use Rattle.std.specs.Prelude.{◌≡◌};
ghost use Rattle.ped_loops.specs.CodeEnding as Spec;

use ped_base::NoMemory;
use ped_edges::Edge;
use ped_rules::{Change, Refused, StepAnswer};

/// The change, which no rule forbids, unless a dependence was found that forbids it.
pub(crate) fn unless_forbidden(change: Change, found: Result<Option<Edge>, NoMemory>) -> StepAnswer
    ensures { result ≡ Spec.unless_forbidden change found }
{
    match found {
        Ok(Some(edge)) => {
            drop(change);
            return Ok(Err(Refused::Dependence(edge)));
        }
        Ok(None) => {
            return Ok(Ok(change));
        }
        Err(NoMemory) => {
            drop(change);
            return Err(NoMemory);
        }
    }
}
