//! Laws of reports.

ghost use Rattle.std.specs.Prelude.{◌≡◌, ◌↔◌, ℕ, List};
ghost use Rattle.ped_tree.specs.Tree.{ProgramTree};
ghost use Rattle.ped_laws.specs.ped_eval.specs.Outcomes.{IsRaceFree};
ghost use Rattle.ped_order.specs.Reports.{Report, NoRace, IsReport};

/// A program has exactly one report on its data.
pub fn one_report()
    ensures some { (t : ProgramTree) (data_bytes : List ℕ) → (r : Report) × IsReport t data_bytes r }
    ensures one { (t : ProgramTree) (data_bytes : List ℕ) (r q : Report) → IsReport t data_bytes r → IsReport t data_bytes q → r ≡ q }
{}

/// The report is that there is no race exactly where the program runs on its data without a fault and without a race.
pub fn no_race_where_race_free()
    ensures { (t : ProgramTree) (data_bytes : List ℕ) (r : Report) → IsReport t data_bytes r → (r ≡ NoRace) ↔ IsRaceFree t data_bytes }
{}
