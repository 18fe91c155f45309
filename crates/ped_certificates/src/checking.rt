//! The checker: it takes the steps of a certificate one by one, on the rows of the branch that is open.

ghost use Rattle.std.specs.Prelude.{◌≡◌, ℕ, ◌<◌, ◌≤◌, ◌^◌, ◌++◌, ◌∷◌, [], List, length, take, drop, false, if◌then◌else◌, All, IfOk, IfSome, OnOk, Some, None, option_and_then};
ghost use Rattle.std.specs.Option.{option_map_or};
ghost use Rattle.ped_certificates.specs.declared.systems.Row.{Row};
ghost use Rattle.ped_certificates.specs.declared.systems.Step.TheVariants.{Cut, Split};
ghost use Rattle.ped_certificates.specs.Limits.{IsRow, IsSystem};
ghost use Rattle.ped_certificates.specs.Branches.{left_by, IsByUnknown};
ghost use Rattle.ped_certificates.specs.Certificates as Spec;

use crate::rows::{at_most, is_indivisible, is_never, more_than};
use crate::sums::{cut_of, sum_of};
use crate::systems::{Part, Row, Step, System};
use ped_base::NoMemory;
use std::alloc::Global;

/// What a step did.
#[derive(Clone, Copy, Drop)]
pub enum Taken {
    /// It can't be taken.
    Refused,
    /// It closed the branch.
    Closed,
    /// It added a row to the branch.
    Open,
    /// It divided the branch by this unknown: the branch that is open says that the unknown is at most this number, and the
    /// other one is still to be closed.
    Divided(usize, i32),
}

/// Whether the steps refute the system. The only error is running out of memory.
pub fn refutes(alloc: Global, system: &System, steps: &[Step]) -> Result<bool, NoMemory>
    requires system { IsSystem system.now }
    ensures { IfOk result (λ refutes. refutes ≡ Spec.refutes system.now steps.now) }
{
    let mut added = Vec::new(alloc);
    match close(alloc, system, &mut added, steps, 0)? {
        Some(next) => Ok(next == steps.len()),
        None => Ok(false),
    }
}

/// Takes steps from a place on until they have closed the branch whose rows are those of the system and those added, and
/// gives the place behind them; none where they don't close it. More rows may have been added then.
fn close(
    alloc: Global,
    system: &System,
    added: &mut Vec<Row>,
    steps: &[Step],
    from: usize,
) -> Result<Option<usize>, NoMemory>
    requires system { IsSystem system.now }
    requires added { All (IsRow system.now.unknowns (2 ^ 64)) added.old.items }
    requires from { from ≤ length steps.now }
    ensures closes { IfOk result (λ next. (branches : List (List Row))
        → Spec.close system.now.unknowns ((system.now.rows ++ added.old.items) ∷ branches) (drop from steps.now)
        ≡ option_map_or (λ k. Spec.close system.now.unknowns branches (drop k steps.now)) next false) }
    ensures later { IfOk result (λ next. IfSome next (λ k. (from < k) × (k ≤ length steps.now))) }
    ensures kept { OnOk result (take (length added.old.items) added.new.items ≡ added.old.items) }
{
    if from == steps.len() {
        return Ok(None);
    }
    let kept = added.len();
    match take_step(alloc, system, added, &steps[from])? {
        Taken::Refused => Ok(None),
        Taken::Closed => Ok(Some(from + 1)),
        Taken::Open => close(alloc, system, added, steps, from + 1),
        Taken::Divided(unknown, most) => {
            match close(alloc, system, added, steps, from + 1)? {
                Some(next) => {
                    begin_second(alloc, system, added, kept, unknown, most)?;
                    close(alloc, system, added, steps, next)
                }
                None => Ok(None),
            }
        }
    }
}

/// Goes on with the second part of a branch that was divided: with the rows that had been added before, and the one that
/// says that the unknown is more.
fn begin_second(
    alloc: Global,
    system: &System,
    added: &mut Vec<Row>,
    kept: usize,
    unknown: usize,
    most: i32,
) -> Result<(), NoMemory>
    requires first { 1 ≤ unknown }
    requires last { unknown ≤ system.now.unknowns }
    requires rows { All (IsRow system.now.unknowns (2 ^ 64)) (take kept added.old.items) }
    ensures items { OnOk result
        (added.new.items ≡ take kept added.old.items ++ Spec.more_than system.now.unknowns unknown most ∷ []) }
    ensures rows { OnOk result (All (IsRow system.now.unknowns (2 ^ 64)) added.new.items) }
{
    let row = more_than(alloc, system.unknowns, unknown, most)?;
    added.truncate(kept);
    added.push(row)?;
    Ok(())
}

/// Takes a step on the branch whose rows are those of the system and those added.
fn take_step(
    alloc: Global,
    system: &System,
    added: &mut Vec<Row>,
    step: &Step,
) -> Result<Taken, NoMemory>
    requires system { IsSystem system.now }
    requires added { All (IsRow system.now.unknowns (2 ^ 64)) added.old.items }
    ensures taken { IfOk result
        (λ taken. Spec.after system.now.unknowns (system.now.rows ++ added.old.items) step.now
        ≡ left_by system.now.unknowns system.now.rows added.old.items added.new.items taken) }
    ensures unknown { IfOk result (IsByUnknown system.now.unknowns) }
    ensures rows { OnOk result (All (IsRow system.now.unknowns (2 ^ 64)) added.new.items) }
    ensures kept { OnOk result (take (length added.old.items) added.new.items ≡ added.old.items) }
{
    match step {
        Step::Cut { parts, divisor } => add_cut(alloc, system, added, parts.as_slice(), *divisor),
        Step::Gcd { parts, divisor } => {
            let sum = sum_of(alloc, system, added, parts.as_slice())?;
            Ok(closed_by(&sum, *divisor))
        }
        Step::Split { unknown, most } => divide(alloc, system, added, *unknown as usize, *most),
    }
}

/// Adds the row of a cut to the branch, or closes the branch by it.
fn add_cut(
    alloc: Global,
    system: &System,
    added: &mut Vec<Row>,
    parts: &[Part],
    divisor: u32,
) -> Result<Taken, NoMemory>
    requires system { IsSystem system.now }
    requires parts { length parts.now ≤ 500 }
    requires added { All (IsRow system.now.unknowns (2 ^ 64)) added.old.items }
    ensures taken { IfOk result
        (λ taken. Spec.after system.now.unknowns (system.now.rows ++ added.old.items) (Cut parts.now divisor)
        ≡ left_by system.now.unknowns system.now.rows added.old.items added.new.items taken) }
    ensures unknown { IfOk result (IsByUnknown system.now.unknowns) }
    ensures rows { OnOk result (All (IsRow system.now.unknowns (2 ^ 64)) added.new.items) }
    ensures kept { OnOk result (take (length added.old.items) added.new.items ≡ added.old.items) }
{
    let Some(row) = cut_of(alloc, system, added, parts, divisor)? else {
        return Ok(Taken::Refused);
    };
    if is_never(&row) {
        return Ok(Taken::Closed);
    }
    added.push(row)?;
    Ok(Taken::Open)
}

/// Closes the branch by an equation that whole numbers can't satisfy.
fn closed_by(sum: &Option<Row>, divisor: u32) -> Taken
    ensures closed { (unknowns : ℕ) (rows before after : List Row)
        → option_and_then (λ row. if Spec.is_indivisible divisor row then Some [] else None) sum.now
        ≡ left_by unknowns rows before after result }
    ensures unknown { (unknowns : ℕ) → IsByUnknown unknowns result }
{
    match sum {
        Some(row) if is_indivisible(divisor, row) => Taken::Closed,
        _ => Taken::Refused,
    }
}

/// Divides the branch by an unknown, and begins the first part.
#[tactic(auto, using(crate::proofs::Ones::split_rows))]
fn divide(
    alloc: Global,
    system: &System,
    added: &mut Vec<Row>,
    unknown: usize,
    most: i32,
) -> Result<Taken, NoMemory>
    requires added { All (IsRow system.now.unknowns (2 ^ 64)) added.old.items }
    ensures taken { IfOk result
        (λ taken. Spec.after system.now.unknowns (system.now.rows ++ added.old.items) (Split unknown most)
        ≡ left_by system.now.unknowns system.now.rows added.old.items added.new.items taken) }
    ensures unknown { IfOk result (IsByUnknown system.now.unknowns) }
    ensures rows { OnOk result (All (IsRow system.now.unknowns (2 ^ 64)) added.new.items) }
    ensures kept { OnOk result (take (length added.old.items) added.new.items ≡ added.old.items) }
{
    if unknown == 0 || unknown > system.unknowns {
        return Ok(Taken::Refused);
    }
    let row = at_most(alloc, system.unknowns, unknown, most)?;
    added.push(row)?;
    Ok(Taken::Divided(unknown, most))
}
