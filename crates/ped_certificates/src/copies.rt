//! Copies of evidence.

ghost use Rattle.std.specs.Prelude.{◌≡◌, IfOk};

use crate::claims::{Claim, Evidence, EvidenceLine};
use crate::systems::Step;
use ped_base::{Listed, NoMemory};
use std::alloc::Global;

/// A copy of evidence.
pub fn copy_evidence(alloc: Global, lines: &[EvidenceLine]) -> Result<Evidence, NoMemory>
    ensures { IfOk result (λ copy. copy ≡ lines.now) }
{
    let mut copy = Evidence::new(alloc);
    for line in lines {
        copy.push(copy_line(alloc, line)?)?;
    }
    Ok(copy)
}

/// A copy of a line of evidence.
fn copy_line(alloc: Global, line: &EvidenceLine) -> Result<EvidenceLine, NoMemory>
    ensures { IfOk result (λ copy. copy ≡ line.now) }
{
    match line {
        EvidenceLine::Empty => Ok(EvidenceLine::Empty),
        EvidenceLine::Malformed => Ok(EvidenceLine::Malformed),
        EvidenceLine::Claim(claim) => Ok(EvidenceLine::Claim(copy_claim(alloc, claim)?)),
    }
}

/// A copy of a claim.
fn copy_claim(alloc: Global, claim: &Claim) -> Result<Claim, NoMemory>
    ensures { IfOk result (λ copy. copy ≡ claim.now) }
{
    let pattern = Listed::from_vec(claim.pattern.as_slice().to_vec(alloc)?);
    let steps = copy_steps(alloc, claim.steps.as_slice())?;
    Ok(Claim {
        source: claim.source,
        sink: claim.sink,
        pattern,
        steps,
    })
}

/// A copy of steps.
fn copy_steps(alloc: Global, steps: &[Step]) -> Result<Listed<Step>, NoMemory>
    ensures { IfOk result (λ copy. copy ≡ steps.now) }
{
    let mut copy = Listed::new(alloc);
    for step in steps {
        copy.push(copy_step(alloc, step)?)?;
    }
    Ok(copy)
}

/// A copy of a step.
fn copy_step(alloc: Global, step: &Step) -> Result<Step, NoMemory>
    ensures { IfOk result (λ copy. copy ≡ step.now) }
{
    match step {
        Step::Cut { parts, divisor } => Ok(Step::Cut {
            parts: parts.copy(alloc)?,
            divisor: *divisor,
        }),
        Step::Gcd { parts, divisor } => Ok(Step::Gcd {
            parts: parts.copy(alloc)?,
            divisor: *divisor,
        }),
        Step::Split { unknown, most } => Ok(Step::Split {
            unknown: *unknown,
            most: *most,
        }),
    }
}
