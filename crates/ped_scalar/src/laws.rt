//! What the definitions in `specs/` determine. The functions do nothing; their contracts are the laws.

ghost use Rattle.std.specs.Prelude.{◌≡◌, ℕ, List, Option, None, false};
ghost use Rattle.ped_tree.specs.Tree.{ProgramTree};
ghost use Rattle.ped_rules.specs.ped_symbols.specs.NameRefusals.{IsValid};
ghost use Rattle.ped_rules.specs.ped_flow.specs.Questions.{LoopOf};
ghost use Rattle.ped_rules.specs.ped_steps.specs.Causes.{Cause, IsFirstCause, none_forbids};
ghost use Rattle.ped_rules.specs.ped_steps.specs.Tidy.{IsTidy};
ghost use Rattle.ped_rules.specs.ped_steps.specs.Runs.Meaning.{Keeps};
ghost use Rattle.ped_rules.specs.ped_loop_runs.specs.Unrejected.{some_rejection};
ghost use Rattle.ped_rules.specs.Lawful.{IsLawful};
ghost use Rattle.ped_scalar.specs.Privatising.{privatised, StandsAgainstPrivatising, privatising};
ghost use Rattle.ped_scalar.specs.Expanding.{IsExpanded, StandsAgainstExpanding, expanding};

/// Against `privatise` there is at most one first cause, and none where there is no cause.
pub fn one_cause_against_privatising()
    ensures { (t : ProgramTree) (s : ℕ) (x : List ℕ) (c d : Option Cause) → IsFirstCause t (StandsAgainstPrivatising s x t) none_forbids c → IsFirstCause t (StandsAgainstPrivatising s x t) none_forbids d → c ≡ d }
{}

/// Where nothing forbids `privatise`, the new program keeps the meaning of a valid old one: on all data on
/// which that runs without a fault and without a race it has the same outcome, and no race (Allen and Kennedy,
/// section 5.2). The same names are saved.
pub fn privatising_keeps()
    ensures { (t : ProgramTree) (s : ℕ) (x : List ℕ) → IsValid t → IsFirstCause t (StandsAgainstPrivatising s x t) none_forbids None → Keeps t (privatised t s x) }
{}

/// Against `expand` there is at most one first cause, and none where there is no cause.
pub fn one_cause_against_expanding()
    ensures { (t : ProgramTree) (s : ℕ) (x : List ℕ) (c d : Option Cause) → IsFirstCause t (StandsAgainstExpanding s x t) none_forbids c → IsFirstCause t (StandsAgainstExpanding s x t) none_forbids d → c ≡ d }
{}

/// Where nothing forbids `expand`, the new program keeps the meaning of a valid and tidy old one: on all data
/// on which that runs without a fault and without a race it has the same outcome, and no race (Allen and Kennedy,
/// section 5.3). In a program that isn't tidy the scalar may be the variable of another DO in a PARALLEL DO around
/// both: that one's iterations have copies of the scalar, and not of the array. The same names are saved.
pub fn expanding_keeps()
    ensures { (t new : ProgramTree) (s : ℕ) (l : LoopOf t s) (x : List ℕ) → IsValid t → IsTidy t → IsFirstCause t (StandsAgainstExpanding s x t) none_forbids None → IsExpanded t s x l.head new → Keeps t new }
{}

/// Where nothing forbids `privatise`, a tidy program stays tidy (ParaScope).
pub fn privatising_stays_tidy()
    ensures { (t : ProgramTree) (s : ℕ) (x : List ℕ) → IsValid t → IsFirstCause t (StandsAgainstPrivatising s x t) none_forbids None → IsTidy t → IsTidy (privatised t s x) }
{}

/// Where nothing forbids `expand`, a tidy program stays tidy (ParaScope).
pub fn expanding_stays_tidy()
    ensures { (t new : ProgramTree) (s : ℕ) (l : LoopOf t s) (x : List ℕ) → IsValid t → IsFirstCause t (StandsAgainstExpanding s x t) none_forbids None → IsExpanded t s x l.head new → IsTidy t → IsTidy new }
{}

/// `privatise` puts no C$PED REJECT line into a program that has none (ParaScope).
pub fn privatising_rejects_nothing()
    ensures { (t : ProgramTree) (s : ℕ) (x : List ℕ) → some_rejection t.body ≡ false → some_rejection (privatised t s x).body ≡ false }
{}

/// `expand` puts no C$PED REJECT line into a program that has none (ParaScope).
pub fn expanding_rejects_nothing()
    ensures { (t new : ProgramTree) (s : ℕ) (l : LoopOf t s) (x : List ℕ) → IsExpanded t s x l.head new → some_rejection t.body ≡ false → some_rejection new.body ≡ false }
{}

/// `privatise` is lawful: what is true of every step of the editor is true of it.
pub fn privatising_is_lawful()
    ensures { (s : ℕ) (x : List ℕ) → IsLawful (privatising s x) }
{}

/// `expand` is lawful: what is true of every step of the editor is true of it.
pub fn expanding_is_lawful()
    ensures { (s : ℕ) (x : List ℕ) → IsLawful (expanding s x) }
{}
