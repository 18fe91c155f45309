//! Files that are read whole.

ghost use Rattle.std.specs.Prelude.{◌≡◌, ◌≢◌, ◌<◌, ◌≤◌, ℕ, List, Some, length, IfOk, IsErrOf};
ghost use Rattle.ped_io.specs.Outside.{Contents, content, AddsOnly, IsHeld, Rose};
ghost use Rattle.ped_io.specs.declared.loading.LoadError.TheVariants.{NoMemory};

use crate::outside::{OutsideFault, Shelf};
use ped_base::Bytes;
use std::alloc::{AllocError, Global};
use thiserror::Error;

/// Why a file wasn't loaded.
#[derive(Clone, Copy, Debug, PartialEq, Eq, Error)]
pub enum LoadError {
    /// A read failed, and the shelf has counted it.
    #[error("the file can't be read")]
    ReadFault,
    /// The file holds more bytes than the limit allows.
    #[error("the file is too long")]
    TooLong,
    /// There was not enough memory.
    #[error("out of memory")]
    NoMemory,
}

impl From<AllocError> for LoadError {
    ghost from_gives = { λ _ e. e ≡ NoMemory };

    fn from(_: AllocError) -> Self {
        LoadError::NoMemory
    }
}

impl From<ped_base::NoMemory> for LoadError {
    ghost from_gives = { λ _ e. e ≡ NoMemory };

    fn from(_: ped_base::NoMemory) -> Self {
        LoadError::NoMemory
    }
}

impl From<OutsideFault> for LoadError {
    ghost use Rattle.ped_io.specs.Faults.{load_fault};

    ghost from_gives = { λ fault e. e ≡ load_fault fault };

    fn from(fault: OutsideFault) -> Self {
        match fault {
            OutsideFault::Failed => LoadError::ReadFault,
            OutsideFault::NoMemory => LoadError::NoMemory,
        }
    }
}

/// Reads a whole file of at most `limit` bytes, in pieces of 4096 bytes. The bytes are the whole content of the name,
/// and `TooLong` comes only where that is longer than `limit`: so it is in all files that the shelf may hold by what
/// the reads gave, among them the files that it reports. `ReadFault` comes only where the count of the name's faults
/// rose. What the shelf reports stays, and so do the counts of the other files in it. It notes reads of this name
/// alone.
pub fn load<F: Shelf>(
    alloc: Global,
    shelf: &mut F,
    name: &str,
    limit: u64,
) -> Result<Bytes, LoadError>
    ensures loaded { IfOk result (λ bytes. (files : Contents) →
        F.may_hold shelf.new files → content files name.now ≡ Some bytes) }
    ensures within { IfOk result (λ bytes. length bytes ≤ limit) }

    // The shelf has counted the fault that stopped the reading.
    ensures fault { IsErrOf result LoadError.ReadFault →
        Rose (F.count shelf.old name.now) (F.count shelf.new name.now) }

    ensures too_long { IsErrOf result LoadError.TooLong → (files : Contents) →
        F.may_hold shelf.new files →
        (bytes : List ℕ) × (content files name.now ≡ Some bytes) × (limit < length bytes) }
    ensures less { (files : Contents) → F.may_hold shelf.new files → F.may_hold shelf.old files }
    ensures counts { (m : List ℕ) → F.count shelf.old m ≤ F.count shelf.new m }
    ensures others { (files : Contents) → F.told shelf.old ≡ Some files →
        (m : List ℕ) → m ≢ name.now → IsHeld files m → F.count shelf.new m ≡ F.count shelf.old m }
    ensures same { F.told shelf.new ≡ F.told shelf.old }
    ensures names { AddsOnly (λ m. m ≡ name.now) (F.read_names shelf.old) (F.read_names shelf.new) }
{
    let mut loaded = Bytes::new(alloc);
    let mut piece = [0; 4096];
    let mut at = 0;
    loop {
        let n = shelf.read_at(name, at, &mut piece)?;
        if n == 0 {
            return Ok(loaded);
        }
        if limit - at < n as u64 {
            return Err(LoadError::TooLong);
        }
        loaded.extend_from_slice(&piece[..n])?;
        at += n as u64;
    }
}
