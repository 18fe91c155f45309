//! Increments that steps accept in a DO (ANSI X3.9-1978, section 11.10.1).

ghost use Rattle.std.specs.Prelude.{◌≡◌, not, true, false, MatchOption, Some};
ghost use Rattle.ped_tree.specs.Views.{head_of, stmt_trees};
ghost use Rattle.ped_tree.specs.Constants.ConstantExpressions.{constant_value};
ghost use Rattle.ped_rules.specs.Rules as Spec;

use ped_tree::Do;
use ped_tree::constants::{Consts, constant};

/// Whether the increment of a DO is 1.
pub fn has_step_one(consts: &Consts, d: &Do) -> bool
    ensures { result ≡ not (Spec.has_other_step consts.now Spec.is_one (head_of d.now) (stmt_trees d.now.body.items)) }
{
    match constant(&d.step, consts) {
        Some(step) => step == 1,
        None => false,
    }
}

/// The increment of a DO, where it is 1 or -1.
pub fn unit_step(consts: &Consts, d: &Do) -> Option<i64>
    ensures { MatchOption result (Spec.has_other_step consts.now Spec.is_unit (head_of d.now) (stmt_trees d.now.body.items) ≡ true)
        (λ step. (constant_value consts.now (head_of d.now).step ≡ Some step) × (Spec.is_unit step ≡ true)) }
{
    match constant(&d.step, consts) {
        Some(step) => {
            if step == 1 {
                return Some(1);
            }
            if step == -1 {
                return Some(-1);
            }
            return None;
        }
        None => {
            return None;
        }
    }
}
