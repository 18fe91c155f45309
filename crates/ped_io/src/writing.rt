//! Texts that are written whole.

ghost use Rattle.std.specs.Prelude.{◌≡◌, ◌<◌, ◌≤◌, ◌++◌, length, take, option_map, OnOk, IfErr};
ghost use Rattle.ped_io.specs.Faults.{sent_of, IsWriteFault};
ghost use Rattle.ped_io.specs.Outside.{Rose};

use crate::outside::{OutsideFault, Sink};
use thiserror::Error;

/// Why not all bytes were taken. `sent` bytes were, from the front.
#[derive(Clone, Copy, Debug, PartialEq, Eq, Error)]
pub enum PutFault {
    /// A write failed, and the sink has counted it.
    #[error("writing failed after {sent} bytes")]
    WriteFault { sent: u64 },
    /// There was not enough memory.
    #[error("out of memory after {sent} bytes")]
    NoMemory { sent: u64 },
}

/// Writes all bytes, in as many writes as the sink wants. Else exactly the first `sent` bytes were taken, fewer than
/// all; a write fault comes only where the count of the sink's faults rose.
pub fn put_all<K: Sink>(sink: &mut K, bytes: &[u8]) -> Result<(), PutFault>
    ensures all { OnOk result (K.taken sink.new
        ≡ option_map (λ before. before ++ bytes.now) (K.taken sink.old)) }
    ensures part { IfErr result (λ fault. K.taken sink.new
        ≡ option_map (λ before. before ++ take (sent_of fault) bytes.now) (K.taken sink.old)) }

    // The same of the bytes that writes have answered to have taken.
    ensures sent { OnOk result (K.sent sink.new ≡ K.sent sink.old ++ bytes.now) }
    ensures sent_part { IfErr result (λ fault. K.sent sink.new
        ≡ K.sent sink.old ++ take (sent_of fault) bytes.now) }

    // Something was left.
    ensures left { IfErr result (λ fault. sent_of fault < length bytes.now) }

    ensures cause { IfErr result (λ fault. IsWriteFault fault →
        Rose (K.faults sink.old) (K.faults sink.new)) }
    ensures counts { K.faults sink.old ≤ K.faults sink.new }
{
    let mut sent = 0;
    while sent < bytes.len() {
        match sink.write(&bytes[sent..]) {
            Ok(n) => sent += n,
            Err(OutsideFault::Failed) => return Err(PutFault::WriteFault { sent: sent as u64 }),
            Err(OutsideFault::NoMemory) => return Err(PutFault::NoMemory { sent: sent as u64 }),
        }
    }
    Ok(())
}
