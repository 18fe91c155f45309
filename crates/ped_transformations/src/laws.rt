//! What is true of every step of the table. The function does nothing; its contract is the law.

ghost use Rattle.ped_script.specs.declared.kinds.StepCommand.{StepCommand};
ghost use Rattle.ped_auto.specs.ped_rules.specs.Lawful.{IsLawful};
ghost use Rattle.ped_transformations.specs.Table.{step_of};

use ped_inline::inline_is_lawful;
use ped_loops::{
    interchange_is_lawful, parallel_is_lawful, rejection_is_lawful, reversal_is_lawful,
    serial_is_lawful, steps_by_evidence_are_lawful,
};
use ped_reduce::reduction_is_lawful;
use ped_reindex::{peeling_is_lawful, skewing_is_lawful, stripping_is_lawful};
use ped_splits::{distribution_is_lawful, fusion_is_lawful};

/// The step of each command that takes one is lawful: it has one first cause at most, makes one program, and where
/// nothing forbids it there is one, which is valid; and a transformation of a program that may be trusted makes one that
/// may be trusted and means the same (Allen and Kennedy, section 2.2.3; ParaScope). With C$PED REJECT lines it keeps the
/// meaning on data on which these are true, if both programs are tidy.
pub fn every_step_is_lawful()
    ensures { (command : StepCommand) → IsLawful (step_of command) }
{
    interchange_is_lawful();
    reversal_is_lawful();
    parallel_is_lawful();
    serial_is_lawful();
    rejection_is_lawful();
    steps_by_evidence_are_lawful();
    skewing_is_lawful();
    stripping_is_lawful();
    peeling_is_lawful();
    distribution_is_lawful();
    fusion_is_lawful();
    reduction_is_lawful();
    inline_is_lawful();
}
