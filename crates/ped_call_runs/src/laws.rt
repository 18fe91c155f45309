//! What runs of program units and of their expansion have in common.

ghost use Rattle.std.specs.Prelude.{◌≡◌, ℕ, List, [], Some, IsTrue};
ghost use Rattle.ped_tree.specs.Grammar.Fits.{fits};
ghost use Rattle.ped_tree.specs.Grammar.Refusal.{Finding, StorageLimit, first_of, IsAmong};
ghost use Rattle.ped_steps.specs.ped_symbols.specs.NameRefusals.{name_refusals, IsValid};
ghost use Rattle.ped_calls.specs.ped_units.specs.Units.{ProgramUnits};
ghost use Rattle.ped_calls.specs.ped_units.specs.Expanding.{expansion};
ghost use Rattle.ped_calls.specs.ped_units.specs.Verdicts.{partial, IsPast, ReadsLinkedUnits};
ghost use Rattle.ped_steps.specs.ped_eval.specs.Runs.{failed};
ghost use Rattle.ped_steps.specs.ped_eval.specs.Outcomes.{Ends, Fault, outcome};
ghost use Rattle.ped_call_runs.specs.UnitRuns.{run_units, outcome_of_units};
ghost use Rattle.ped_call_runs.specs.UnitFaults.{FaultsInOwn, expanded_number};

/// Where the run of program units ends without a fault, the program that they expand to has the same outcome on the same
/// data: it prints the same lines, and its live-out variables hold the same.
pub fn expansions_run_alike()
    ensures { (text : List ℕ) (us : ProgramUnits) (data_bytes : List ℕ) → ReadsLinkedUnits text us → IsValid (expansion us) → Ends (run_units us data_bytes).ending → outcome (expansion us) data_bytes ≡ outcome_of_units us data_bytes }
{}

/// Where the run of program units meets a fault, the program that they expand to meets the same fault on the same data, at
/// what the statement has become. One fault is left out: a variable that a CALL has of its own is read while it is undefined.
/// In the expansion it may hold what the CALL before has left in it.
pub fn expansions_fault_alike()
    ensures { (text : List ℕ) (us : ProgramUnits) (data_bytes : List ℕ) (fault statement : ℕ) → ReadsLinkedUnits text us → IsValid (expansion us) → (run_units us data_bytes).ending ≡ failed fault statement → (FaultsInOwn (run_units us data_bytes) → ⊥) → outcome (expansion us) data_bytes ≡ Fault fault (expanded_number us statement) }
{}

/// With some of its CALLs expanded, the first in text order, a main program breaks no rule on names but the limit of
/// storage and references, where it is a program of the profile. So that limit is what is refused first, where it is
/// said to be passed in expanding. The premise `fits` is needed: numbers have at most 64 digits here, so beyond 10^64 new
/// names would repeat.
pub fn expansions_pass_limits_alone()
    ensures names { (text : List ℕ) (us : ProgramUnits) (m : ℕ) → ReadsLinkedUnits text us → IsTrue (fits (partial us m)) → (f : Finding) → IsAmong f (name_refusals [] (partial us m)) → f.refusal ≡ StorageLimit }
    ensures storage { (text : List ℕ) (us : ProgramUnits) (m : ℕ) → ReadsLinkedUnits text us → IsPast us m StorageLimit → (f : Finding) × (first_of (name_refusals [] (partial us m)) ≡ Some f) × (f.refusal ≡ StorageLimit) }
{}
