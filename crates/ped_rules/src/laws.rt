//! What is true of a step that several families use. The function does nothing; its contract is the law.

ghost use Rattle.std.specs.Prelude.{ℕ};
ghost use Rattle.ped_rules.specs.Lawful.{IsLawful};
ghost use Rattle.ped_rules.specs.Paralleling.{paralleling};

use ped_loop_runs::{
    indices_unwritten, none_rejected, one_for_one, private_names_cleared, stays_trusted,
};

/// `parallel` has one first cause at most and makes one program. Where nothing forbids it, that one is valid if the old
/// one is; and if the old one is also tidy and without C$PED REJECT, so is the new one, and it means the same (Allen
/// and Kennedy, section 2.4.1; ParaScope). With such lines it does on data on which they are true, if both are tidy.
pub fn parallel_is_lawful()
    ensures { (s : ℕ) → IsLawful (paralleling s) }
{
    one_for_one();
    stays_trusted();
    private_names_cleared();
    indices_unwritten();
    none_rejected();
}
