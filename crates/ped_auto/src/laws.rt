//! What holds for `auto` over every editor. Each function here does nothing; its contract is the law.

ghost use Rattle.std.specs.Prelude.{◌≡◌, ℕ};
ghost use Rattle.std.specs.List.{AllByRecursion};
ghost use Rattle.ped_script.specs.CommandTexts.{IsWritable};
ghost use Rattle.ped_auto.specs.Editing.{IsOfStrategy};
ghost use Rattle.ped_auto.specs.Replay.{Replays, HasShortNames};
ghost use Rattle.ped_auto.specs.Strategy.{Report, IsAuto};

use crate::editor::Editor;
use std::sync::ledger::Ledger;

/// From a state `auto` has one report at most, leads to one state, and tests one number of pairs.
pub fn one_auto<L: Ledger, E: Editor<L>>()
    ensures { (start end last : E) (a b : Report) (m n : ℕ) →
        IsAuto E.editing start a end m → IsAuto E.editing start b last n → (a ≡ b) × (end ≡ last) × (m ≡ n) }
{}

/// The accepted commands, one after another, lead from the state before `auto` to the one after it, with the same
/// tests.
pub fn auto_replays<L: Ledger, E: Editor<L>>()
    ensures { (start last : E) (report : Report) (tests : ℕ) →
        IsAuto E.editing start report last tests → Replays E.editing start report.accepted last tests }
{}

/// Each accepted command is one of the strategy; and where the names of scalars can be written, a script can say it in one
/// line.
pub fn accepted_are_commands<L: Ledger, E: Editor<L>>()
    ensures strategy { (start last : E) (report : Report) (tests : ℕ) →
        IsAuto E.editing start report last tests → AllByRecursion IsOfStrategy report.accepted }
    ensures written { (start last : E) (report : Report) (tests : ℕ) → HasShortNames E.editing →
        IsAuto E.editing start report last tests → AllByRecursion IsWritable report.accepted }
{}
