//! Names in byte order.

ghost use Rattle.std.specs.Prelude.{◌≡◌, IfOk};
ghost use Rattle.std.specs.Ordering.{nat_cmp};
ghost use Rattle.std.specs.Cmp.Lexicographic.{slice_cmp};
ghost use Rattle.ped_eval.specs.Loops as Loops;

use ped_base::{Name, Names, NoMemory};
use std::alloc::Global;
use std::cmp::Ordering;

/// Names in byte order, each once.
pub(crate) fn sorted_once(alloc: Global, names: &[Name]) -> Result<Names, NoMemory>
    ensures { IfOk result (λ sorted. sorted ≡ Loops.sorted_once names.now) }
{
    let mut sorted = Vec::from_slice(alloc, names)?;
    sorted.sort_by(|a, b| compared(a, b))?;
    sorted.dedup();
    Ok(Names::from_vec(sorted))
}

/// Which of two names comes first in byte order.
fn compared(a: &Name, b: &Name) -> Ordering
    ensures { result ≡ slice_cmp nat_cmp a.now b.now }
{
    a.as_bytes().cmp(b.as_bytes())
}
