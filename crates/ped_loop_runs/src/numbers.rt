//! The numbers under which the statements of a new program are counted.

ghost use Rattle.std.specs.Prelude.{◌≡◌, ℕ, List};
ghost use Rattle.ped_bodies.specs.ped_flow.specs.ped_tree.specs.Tree.{ProgramTree};
ghost use Rattle.ped_bodies.specs.ped_laws.specs.Acts.Orders.{IsIn};
ghost use Rattle.ped_bodies.specs.ped_eval.specs.Outcomes.{setting_of};
ghost use Rattle.ped_bodies.specs.ped_steps.specs.Runs.Renumbering.{IsToldBack, renumbered};
ghost use Rattle.ped_loop_runs.specs.Numbers.{counted_by, told_by, AreApart, kept_numbers, FitInGap};
ghost use Rattle.ped_loop_runs.specs.Pasting.{CountAlike};

/// Numbers that count as pairs say are determined by the numbers under which they count; of each pair the first counts
/// under the second. So the statements of a program that stay count under their old numbers, whatever comes in the
/// place of the others, and the new statements count as a step likes. For new programs that are run under the numbers
/// of the old one.
pub fn numbers_kept()
    ensures back { (pairs : List (ℕ × ℕ)) → IsToldBack (counted_by pairs) (told_by pairs) }
    ensures each { (pairs : List (ℕ × ℕ)) → AreApart pairs → (y : ℕ × ℕ) → IsIn y pairs → counted_by pairs y.0 ≡ y.1 }
    ensures inside { (l old new all : ℕ) (inside : List (ℕ × ℕ)) → FitInGap l old new all inside → (y : ℕ × ℕ) → IsIn y inside → counted_by (kept_numbers l old new all inside) y.0 ≡ y.1 }
    ensures alike { (l old new all : ℕ) (inside : List (ℕ × ℕ)) → FitInGap l old new all inside → (t u : ProgramTree) → CountAlike (setting_of t) (renumbered (counted_by (kept_numbers l old new all inside)) (setting_of u)) l old new all }
{}
