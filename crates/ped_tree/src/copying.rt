//! Copies of trees: each has the plain tree of its original, with comments, PRIVATE names and rejected names. A type
//! that holds lists of its own kind is copied together with its lists.

mod declarations;
mod expressions;
mod statements;

ghost use Rattle.std.specs.Prelude.{◌≡◌, IfOk};

pub use declarations::copy_decls;
use ped_base::{Bytes, Listed, Names, NoMemory};
use std::alloc::Global;

/// A copy of names.
pub fn copy_names(names: &Names, alloc: Global) -> Result<Names, NoMemory>
    ensures { IfOk result (λ copy. copy ≡ names.now) }
{
    Ok(Listed::from_vec(names.as_slice().to_vec(alloc)?))
}

fn copy_bytes(bytes: &Bytes, alloc: Global) -> Result<Bytes, NoMemory>
    ensures { IfOk result (λ copy. copy ≡ bytes.now) }
{
    Ok(Listed::from_vec(bytes.as_slice().to_vec(alloc)?))
}
