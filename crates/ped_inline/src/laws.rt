//! What is true of the step. The function does nothing; its contract is the law.

ghost use Rattle.std.specs.Prelude.{ℕ};
ghost use Rattle.ped_rules.specs.Lawful.{IsLawful};
ghost use Rattle.ped_inline.specs.Inlining.{inlining};

/// `inline` has one first cause at most and makes one program. Where nothing forbids it, that one is valid if the old one
/// is; and if the old one is also tidy and without C$PED REJECT, so is the new one, and it means the same (ParaScope). With
/// such lines it does on data on which they are true, if both are tidy.
pub fn inline_is_lawful()
    ensures { (s : ℕ) → IsLawful (inlining s) }
{}
