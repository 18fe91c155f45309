//! What is true of the steps. The functions do nothing; their contracts are the laws.

ghost use Rattle.std.specs.Prelude.{ℕ, ℤ, Bool};
ghost use Rattle.ped_rules.specs.Lawful.{IsLawful};
ghost use Rattle.ped_reindex.specs.Skewing.{skewing};
ghost use Rattle.ped_reindex.specs.Stripping.{stripping};
ghost use Rattle.ped_reindex.specs.Peeling.{peeling};

use ped_rules::{private_names_cleared, stays_trusted};

/// `skew` has one first cause at most and makes one program. Where nothing forbids it, that one is valid if the old one is;
/// and if the old one is also tidy and without C$PED REJECT, so is the new one, and it means the same (Allen and Kennedy,
/// section 5.9; ParaScope). With such lines it does on data on which they are true, if both are tidy.
pub fn skewing_is_lawful()
    ensures { (s : ℕ) (f : ℤ) → IsLawful (skewing s f) }
{
    stays_trusted();
    private_names_cleared();
}

/// So it is with `strip` (Allen and Kennedy, section 6.6.1; ParaScope).
pub fn stripping_is_lawful()
    ensures { (s : ℕ) (k : ℤ) → IsLawful (stripping s k) }
{
    stays_trusted();
    private_names_cleared();
}

/// And with `peel`, of the first iteration and of the last one (Allen and Kennedy, section 5.7.2; ParaScope).
pub fn peeling_is_lawful()
    ensures { (s : ℕ) (last : Bool) → IsLawful (peeling s last) }
{
    stays_trusted();
    private_names_cleared();
}
