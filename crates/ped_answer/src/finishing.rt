//! Answers that are written whole, and then the status.

ghost use Rattle.std.specs.Prelude.{◌≡◌, ◌≢◌, ◌⊎◌, ◌≤◌, Some, None};
ghost use Rattle.ped_io.specs.Outside.{Rose};
ghost use Rattle.ped_answer.specs.Answer.{Sends, IsJust};

use crate::answering::Status;
use ped_io::{PutFault, Sink, put_all};

/// Writes all bytes, and answers the status where they were taken.
pub fn finish<K: Sink>(out: &mut K, bytes: &[u8], status: Status) -> Status
    requires { (status ≢ Status.WriteFault) × (status ≢ Status.NoMemory) }
    ensures answer { Sends (IsJust status bytes.now)
        (Rose (K.faults out.old) (K.faults out.new)) (K.sent out.old) (K.sent out.new) result }
    ensures ends { (result ≡ status) ⊎ (result ≡ Status.WriteFault) ⊎ (result ≡ Status.NoMemory) }
    ensures write_fault { result ≡ Status.WriteFault → Rose (K.faults out.old) (K.faults out.new) }
    ensures faults { K.faults out.old ≤ K.faults out.new }
    ensures untold { K.taken out.old ≡ None → K.taken out.new ≡ None }
    ensures told_sent { K.taken out.old ≡ Some (K.sent out.old) → K.taken out.new ≡ Some (K.sent out.new) }
{
    match put_all(out, bytes) {
        Ok(()) => status,
        Err(PutFault::WriteFault { .. }) => Status::WriteFault,
        Err(PutFault::NoMemory { .. }) => Status::NoMemory,
    }
}
