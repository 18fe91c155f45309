//! What is true of the steps. The functions do nothing; their contracts are the laws.

ghost use Rattle.std.specs.Prelude.{ℕ, List, []};
ghost use Rattle.ped_evidence.specs.Evidence.{Line};
ghost use Rattle.ped_rules.specs.Lawful.{IsLawful};
ghost use Rattle.ped_rules.specs.Paralleling.{paralleling};
ghost use Rattle.ped_loops.specs.ByEvidence.{IsSameStep, interchanging_by, paralleling_by, reversing_by};
ghost use Rattle.ped_loops.specs.Serialising.{serialising};
ghost use Rattle.ped_loops.specs.Rejecting.{rejecting};
ghost use Rattle.ped_loops.specs.Reversing.{reversing};
ghost use Rattle.ped_loops.specs.Interchanging.{interchanging};

use ped_evidence::{disproved_are_of_elements, disproved_never_meets};
use ped_rules::{
    accesses_are_made, accesses_in_sequence, indices_unwritten, none_rejected, one_for_one,
    private_names_cleared, stays_trusted,
};

/// `serial` has one first cause at most and makes one program. Where nothing forbids it, that one is valid if the old
/// one is; and if the old one is also tidy and without C$PED REJECT, so is the new one, and it means the same
/// (ParaScope). With such lines it does on data on which they are true, if both are tidy.
pub fn serial_is_lawful()
    ensures { (s : ℕ) → IsLawful (serialising s) }
{
    one_for_one();
    stays_trusted();
    private_names_cleared();
}

/// `reject` has one first cause at most and makes one program, which is valid where the old one is and nothing forbids the
/// step (ParaScope).
pub fn rejection_is_lawful()
    ensures { (s : ℕ) (x : List ℕ) → IsLawful (rejecting s x) }
{}

/// `reverse` has one first cause at most and makes one program. Where nothing forbids it, that one is valid if the old one
/// is; and if the old one is also tidy and without C$PED REJECT, so is the new one, and it means the same (Allen and
/// Kennedy, sections 2.2.3, 5.2). With such lines it does on data on which they are true, if both are tidy.
pub fn reversal_is_lawful()
    ensures { (s : ℕ) → IsLawful (reversing s) }
{
    one_for_one();
    stays_trusted();
    private_names_cleared();
    none_rejected();
}

/// `interchange` has one first cause at most and makes one program. Where nothing forbids it, that one is valid if the old
/// one is; and if the old one is also tidy and without C$PED REJECT, so is the new one, and it means the same (Allen and
/// Kennedy, section 5.2). With such lines it does on data on which they are true, if both are tidy.
pub fn interchange_is_lawful()
    ensures { (s : ℕ) → IsLawful (interchanging s) }
{
    accesses_are_made();
    accesses_in_sequence();
    stays_trusted();
    private_names_cleared();
    none_rejected();
}

/// `parallel`, `reverse` and `interchange` with evidence have one first cause at most and make one program. Where nothing
/// forbids the step, that one is valid if the old one is; and if the old one is also tidy and without C$PED REJECT, so is
/// the new one, and it means the same, whatever the evidence says: for a vector that it disproves no two accesses of a run
/// conflict in these directions. With such lines it does on data on which they are true, if both are tidy (this project).
pub fn steps_by_evidence_are_lawful()
    ensures parallel { (s : ℕ) (evidence : List Line) → IsLawful (paralleling_by s evidence) }
    ensures reversal { (s : ℕ) (evidence : List Line) → IsLawful (reversing_by s evidence) }
    ensures interchange { (s : ℕ) (evidence : List Line) → IsLawful (interchanging_by s evidence) }
{
    accesses_are_made();
    accesses_in_sequence();
    one_for_one();
    stays_trusted();
    private_names_cleared();
    indices_unwritten();
    none_rejected();
    disproved_never_meets();
    disproved_are_of_elements();
}

/// Where evidence has no line, the step is the plain one (this project).
pub fn without_evidence()
    ensures parallel { (s : ℕ) → IsSameStep (paralleling_by s []) (paralleling s) }
    ensures reversal { (s : ℕ) → IsSameStep (reversing_by s []) (reversing s) }
    ensures interchange { (s : ℕ) → IsSameStep (interchanging_by s []) (interchanging s) }
{}
