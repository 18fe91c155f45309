//! The statements at which there are too many ordered pairs. The references up to such a statement have more
//! pairs than a program may have.

ghost use Rattle.std.specs.Prelude.{◌≡◌, ◌+◌, ◌^◌, ◌<◌, ℕ, length, IfOk};
ghost use Rattle.ped_tree.specs.Numbering.{statements_count};
ghost use Rattle.ped_tree.specs.Views.{program_tree};
ghost use Rattle.ped_refs.specs.References.{references};
ghost use Rattle.ped_symbols.specs.Passes.{CountsTo, is_reached};

use ped_base::NoMemory;
use ped_refs::{first_beyond_limit, refs};
use ped_tree::Program;
use std::alloc::Global;

/// How many numbered statements of a program come before the first at which there are too many pairs; none where
/// there never are.
pub fn until_many_pairs(alloc: Global, program: &Program) -> Result<Option<u32>, NoMemory>
    requires statements { statements_count (program_tree program.now).body < 2 ^ 32 }
    requires references { length (references (program_tree program.now)) < 2 ^ 32 }
    ensures { IfOk result (CountsTo (references (program_tree program.now)) 0) }
{
    let refs = refs(alloc, program)?;
    let first = first_beyond_limit(alloc, &refs)?;
    Ok(one_less(first))
}

/// How many remain after one more statement; 0 stays.
pub fn one_less(until: Option<u32>) -> Option<u32>
    ensures { (others : ℕ) → is_reached result others ≡ is_reached until (others + 1) }
{
    match until {
        Some(count) => Some(count.saturating_sub(1)),
        None => None,
    }
}

/// Whether none is left.
pub fn is_none_left(until: Option<u32>) -> bool
    ensures { result ≡ is_reached until 0 }
{
    matches!(until, Some(0))
}
