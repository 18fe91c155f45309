//! Why a file of program units isn't opened.

ghost use Rattle.std.specs.Prelude.{◌≡◌};
ghost use Rattle.ped_units.specs.Verdicts.{number_of_rule, name_of_rule};
ghost use Rattle.ped_units.specs.Views.{rule_of};
ghost use Rattle.ped_units.specs.declared.refusals.UnitRefusal.TheVariants as variant;

use ped_base::NoMemory;
use ped_tree::grammar::RefusalKind;
use thiserror::Error;

/// A rule that a file of program units breaks, in the order of the numbers 1 to 24.
#[derive(Clone, Copy, Debug, PartialEq, Eq)]
pub enum UnitRule {
    /// A rule of texts, 1 to 19, which each unit keeps; 13 and 19 also by the program that comes of expanding.
    Text(RefusalKind),
    /// A CALL names no unit of the file, or a SUBROUTINE statement repeats a unit's name.
    NoUnit,
    /// CALLs lead from a unit back to it.
    Recursion,
    /// Arguments don't fit dummy arguments.
    Arguments,
    /// One name stands for two dummy arguments of which one is assigned.
    Aliased,
    /// A CALL in a PARALLEL DO.
    CallPlace,
}

impl UnitRule {
    /// The number of the rule, 1 to 24: of the refusals at one line the least counts.
    pub fn number(self) -> u8
        ensures { result ≡ number_of_rule (rule_of self) }
    {
        match self {
            UnitRule::Text(kind) => kind.number(),
            UnitRule::NoUnit => 20,
            UnitRule::Recursion => 21,
            UnitRule::Arguments => 22,
            UnitRule::Aliased => 23,
            UnitRule::CallPlace => 24,
        }
    }

    /// The name of the rule, as it is printed.
    pub fn name(self) -> &'static [u8]
        ensures { result.now ≡ name_of_rule (rule_of self) }
    {
        match self {
            UnitRule::Text(kind) => kind.name(),
            UnitRule::NoUnit => b"NoUnit",
            UnitRule::Recursion => b"Recursion",
            UnitRule::Arguments => b"Arguments",
            UnitRule::Aliased => b"Aliased",
            UnitRule::CallPlace => b"CallPlace",
        }
    }
}

/// A rule that is broken at a line.
#[derive(Clone, Copy, Debug, PartialEq, Eq)]
pub struct UnitFinding {
    /// The rule.
    pub rule: UnitRule,
    /// The line's number, from 1; 0 for a text without lines.
    pub line: u64,
}

/// Why a file of program units isn't opened.
#[derive(Clone, Copy, Debug, PartialEq, Eq, Error)]
pub enum UnitRefusal {
    /// The first of the file's refusals.
    #[error("the file is refused")]
    At(UnitFinding),
    /// Memory ran out.
    #[error("out of memory")]
    NoMemory,
}

impl From<NoMemory> for UnitRefusal {
    ghost from_gives = { λ _ e. e ≡ variant.NoMemory };

    fn from(_: NoMemory) -> UnitRefusal {
        UnitRefusal::NoMemory
    }
}
