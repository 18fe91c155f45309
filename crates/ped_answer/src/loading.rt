//! Files that can't be loaded: the line that says why.

ghost use Rattle.std.specs.Prelude.{◌≡◌, ◌⊎◌, ◌≤◌, Some, None, IfOk};
ghost use Rattle.ped_io.specs.Outside.{Rose};
ghost use Rattle.ped_answer.specs.Answer as Spec;
ghost use Rattle.ped_answer.specs.Answer.{Sends, IsJust};
ghost use Rattle.ped_answer.specs.Serving.{SaysUnread, unread_status};

use crate::answering::Status;
use crate::finishing::finish;
use ped_base::{Bytes, NoMemory, push_number};
use ped_io::{LoadError, Sink};
use std::alloc::Global;

/// The most bytes that a program or a script may have.
pub const SOURCE_LIMIT: u64 = 1_048_576;

/// The most bytes that data may have.
pub const DATA_LIMIT: u64 = 4_194_304;

/// Says why the file of this name, which may have this many bytes, isn't loaded.
pub fn say_unread<K: Sink>(
    alloc: Global,
    name: &str,
    limit: u64,
    fault: LoadError,
    out: &mut K,
) -> Status
    ensures answer { Sends (SaysUnread (record { name = name.now; most = limit }) fault)
        (Rose (K.faults out.old) (K.faults out.new)) (K.sent out.old) (K.sent out.new) result }
    ensures ends { (result ≡ unread_status fault) ⊎ (result ≡ Status.WriteFault) ⊎ (result ≡ Status.NoMemory) }
    ensures write_fault { result ≡ Status.WriteFault → Rose (K.faults out.old) (K.faults out.new) }
    ensures faults { K.faults out.old ≤ K.faults out.new }
    ensures untold { K.taken out.old ≡ None → K.taken out.new ≡ None }
    ensures told_sent { K.taken out.old ≡ Some (K.sent out.old) → K.taken out.new ≡ Some (K.sent out.new) }
{
    match fault {
        LoadError::ReadFault => return cannot_read(alloc, name, out),
        LoadError::TooLong => return is_too_long(alloc, name, limit, out),
        LoadError::NoMemory => return Status::NoMemory,
    }
}

/// Says that a file is longer than it may be.
fn is_too_long<K: Sink>(alloc: Global, name: &str, limit: u64, out: &mut K) -> Status
    ensures answer { Sends (IsJust Status.TooLong (Spec.too_long_line (record { name = name.now; most = limit })))
        (Rose (K.faults out.old) (K.faults out.new)) (K.sent out.old) (K.sent out.new) result }
    ensures ends { (result ≡ Status.TooLong) ⊎ (result ≡ Status.WriteFault) ⊎ (result ≡ Status.NoMemory) }
    ensures write_fault { result ≡ Status.WriteFault → Rose (K.faults out.old) (K.faults out.new) }
    ensures faults { K.faults out.old ≤ K.faults out.new }
    ensures untold { K.taken out.old ≡ None → K.taken out.new ≡ None }
    ensures told_sent { K.taken out.old ≡ Some (K.sent out.old) → K.taken out.new ≡ Some (K.sent out.new) }
{
    match too_long_line(alloc, name, limit) {
        Ok(line) => finish(out, line.as_slice(), Status::TooLong),
        Err(NoMemory) => Status::NoMemory,
    }
}

fn too_long_line(alloc: Global, name: &str, limit: u64) -> Result<Bytes, NoMemory>
    ensures { IfOk result (λ line. line ≡ Spec.too_long_line (record { name = name.now; most = limit })) }
{
    let mut line = Bytes::new(alloc);
    line.extend_from_slice(b"ped: ")?;
    line.extend_from_slice(name.as_bytes())?;
    line.extend_from_slice(b" is longer than ")?;
    push_number(&mut line, limit)?;
    line.extend_from_slice(b" bytes")?;
    line.push(b'\n')?;
    Ok(line)
}

/// Says that a file can't be read.
fn cannot_read<K: Sink>(alloc: Global, name: &str, out: &mut K) -> Status
    ensures answer { Sends (IsJust Status.ReadFault (Spec.cannot_read_line name.now))
        (Rose (K.faults out.old) (K.faults out.new)) (K.sent out.old) (K.sent out.new) result }
    ensures ends { (result ≡ Status.ReadFault) ⊎ (result ≡ Status.WriteFault) ⊎ (result ≡ Status.NoMemory) }
    ensures write_fault { result ≡ Status.WriteFault → Rose (K.faults out.old) (K.faults out.new) }
    ensures faults { K.faults out.old ≤ K.faults out.new }
    ensures untold { K.taken out.old ≡ None → K.taken out.new ≡ None }
    ensures told_sent { K.taken out.old ≡ Some (K.sent out.old) → K.taken out.new ≡ Some (K.sent out.new) }
{
    match cannot_read_line(alloc, name) {
        Ok(line) => finish(out, line.as_slice(), Status::ReadFault),
        Err(NoMemory) => Status::NoMemory,
    }
}

fn cannot_read_line(alloc: Global, name: &str) -> Result<Bytes, NoMemory>
    ensures { IfOk result (λ line. line ≡ Spec.cannot_read_line name.now) }
{
    let mut line = Bytes::new(alloc);
    line.extend_from_slice(b"ped: cannot read ")?;
    line.extend_from_slice(name.as_bytes())?;
    line.push(b'\n')?;
    Ok(line)
}
