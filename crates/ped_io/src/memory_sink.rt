//! A sink in memory on which chosen writes fail.

ghost use Rattle.std.specs.Prelude.{◌≡◌, ◌≤◌, ◌↔◌, ◌++◌, Some, Ok, length, min, take, option_map, IfOk, OnErr, IsErrOf};
ghost use Rattle.ped_io.specs.Outside.{Rose};
ghost use Rattle.ped_io.specs.Sinks.{MemorySink, new_sink, FailsNext, after_write, after_call, after_fault};

use crate::counting::{Calls, is_among, one_more};
use crate::outside::{OutsideFault, Sink};
use ped_base::{Bytes, NoMemory};
use std::alloc::Global;
use std::marker::Model;

/// A sink in memory, of which some writes fail: those whose numbers are in a list. Contracts see
/// a plain record of all that it keeps.
#[derive(Drop)]
pub struct MemSink {
    taken: Bytes,
    fails: Calls,
    most: usize,
    calls: u64,
    faults: u64,
}

impl Model for MemSink {
    ghost use Rattle.std.specs.Prelude.{◌≤◌};
    ghost use Rattle.ped_io.specs.Sinks.{MemorySink};

    ghost Value = { MemorySink };

    ghost view = { λ sink. record {
      taken = sink.taken;
      fails = sink.fails;
      most = sink.most;
      calls = sink.calls;
      faults = sink.faults;
    } };

    ghost invariant = { λ sink. 1 ≤ sink.most };
}

impl MemSink {
    /// A sink that has taken nothing. Writes take at most `most` bytes, and fail at these calls.
    pub fn new(alloc: Global, fails: Calls, most: usize) -> Result<Self, NoMemory>
        requires { 1 ≤ most }
        ensures { result ≡ Ok (new_sink fails most) }
    {
        Ok(MemSink {
            taken: Bytes::new(alloc),
            fails,
            most,
            calls: 0,
            faults: 0,
        })
    }

    /// All bytes taken.
    pub fn taken(&self) -> &[u8]
        ensures { result.now ≡ self.now.taken }
    {
        self.taken.as_slice()
    }
}

impl Sink for MemSink {
    ghost use Rattle.std.specs.Prelude.{Some};
    ghost use Rattle.std.proofs.lemmas.Option.{same_Some};

    ghost taken = { λ sink. Some sink.taken };

    ghost sent = { λ sink. sink.taken };

    ghost taken_sent = { λ s bytes taken. same_Some _ _ taken };

    ghost faults = { λ sink. sink.faults };

    fn write(&mut self, piece: &[u8]) -> Result<usize, OutsideFault>
        // The exact behaviour: a call fails by its number, and in no other way.
        ensures fails { IsErrOf result OutsideFault.Failed ↔ FailsNext self.old }
        ensures most { IfOk result (λ n. n ≡ min self.old.most (length piece.now)) }
        ensures ok { IfOk result (λ n. self.new ≡ after_write self.old (take n piece.now)) }
        ensures failed { IsErrOf result OutsideFault.Failed → self.new ≡ after_fault self.old }
        ensures no_memory { IsErrOf result OutsideFault.NoMemory → self.new ≡ after_call self.old }

        // What any sink ensures.
        ensures within { IfOk result (λ n. n ≤ length piece.now) }
        ensures some { IfOk result (λ n. n ≡ 0 → length piece.now ≡ 0) }
        ensures took { IfOk result (λ n. Some self.new.taken
            ≡ option_map (λ before. before ++ take n piece.now) (Some self.old.taken)) }
        ensures err { OnErr result (Some self.new.taken ≡ Some self.old.taken) }
        ensures sent { IfOk result (λ n. self.new.taken ≡ self.old.taken ++ take n piece.now) }
        ensures unsent { OnErr result (self.new.taken ≡ self.old.taken) }
        ensures cause { IsErrOf result OutsideFault.Failed → Rose self.old.faults self.new.faults }
        ensures counts { self.old.faults ≤ self.new.faults }
    {
        self.calls = one_more(self.calls);
        if is_among(&self.fails, self.calls) {
            self.faults = one_more(self.faults);
            return Err(OutsideFault::Failed);
        }
        let n = self.most.min(piece.len());
        self.taken.extend_from_slice(&piece[..n])?;
        Ok(n)
    }
}
