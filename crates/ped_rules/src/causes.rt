//! Rules that refuse a step.

ghost use Rattle.std.specs.Prelude.{◌≡◌};
ghost use Rattle.ped_loop_runs.specs.ped_steps.specs.declared.causes.Refused.TheVariants as refused;

use ped_loop_runs::{Refused, Rule};

/// A rule that forbids the step, with the statement that it names.
pub fn against(rule: Rule, statement: u32) -> Refused
    ensures { result ≡ refused.Rule rule statement }
{
    Refused::Rule { rule, statement }
}
