//! Replies to commands.

ghost use Rattle.std.specs.Prelude.{◌≡◌};
ghost use Rattle.ped_transformations.specs.ped_steps.specs.CodeCauses.{cause_of, IsShort};

use ped_base::Bytes;
use ped_transformations::Refused;
use ped_tree::grammar::Refusal as TextRefusal;
use std::marker::Model;

/// The first cause against a step. Contracts see the rule with the statement that it names, or the dependence.
#[derive(Drop)]
pub struct FirstCause {
    refused: Refused,
}

impl Model for FirstCause {
    ghost use Rattle.ped_transformations.specs.ped_steps.specs.Causes.{Cause};
    ghost use Rattle.ped_transformations.specs.ped_steps.specs.CodeCauses.{cause_of, IsShort};

    ghost Value = { Cause };

    ghost view = { λ c. cause_of c.refused };

    ghost invariant = { λ c. IsShort c.refused };
}

impl FirstCause {
    /// The cause for which a step was refused.
    pub(crate) fn new(refused: Refused) -> FirstCause
        requires { IsShort refused }
        ensures { result ≡ cause_of refused }
    {
        FirstCause { refused }
    }

    /// The cause as the step has reported it.
    pub fn refused(&self) -> &Refused
        ensures cause { cause_of result.now ≡ self.now }
        ensures short { IsShort result.now }
    {
        &self.refused
    }

    /// The cause itself.
    pub(crate) fn take(self) -> Refused
        ensures cause { cause_of result ≡ self }
        ensures short { IsShort result }
    {
        self.refused
    }
}

/// Why a command is refused.
#[derive(Drop)]
pub enum Refusal {
    /// The text of an edit isn't read: its first refusal, whose line counts in the text with the edit in it.
    BadEdit(TextRefusal),
    /// A rule forbids the step, or a dependence does: the first cause.
    Step(FirstCause),
    /// There is no past source.
    NothingToUndo,
    /// There is no future source.
    NothingToRedo,
    /// The present program has no statement of this number.
    NoSuchStatement,
    /// The present source has no such lines, or the first follows the last.
    NoSuchLine,
    /// The present program has no two such references of which evidence may speak, or the pattern has another length.
    NoSuchPair,
}

/// The reply to a command.
#[derive(Drop)]
pub enum Reply {
    /// The present source is another one now.
    Changed,
    /// This is printed.
    Shown(Bytes),
    /// The command is refused, and the session is as it was.
    Refused(Refusal),
}
