//! What a certificate proves. The function here does nothing; its contract is the law.

ghost use Rattle.std.specs.Prelude.{◌≡◌, ℤ, List, true};
ghost use Rattle.ped_certificates.specs.declared.systems.Step.{Step};
ghost use Rattle.ped_certificates.specs.declared.systems.System.{System};
ghost use Rattle.ped_certificates.specs.Rows.{Meets};
ghost use Rattle.ped_certificates.specs.Certificates.{refutes};

/// Where a certificate refutes a system, no whole numbers satisfy it.
pub fn nothing_meets()
    ensures { (system : System) (steps : List Step) → refutes system steps ≡ true → (values : List ℤ) → Meets system.rows values → ⊥ }
{}
