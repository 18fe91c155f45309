//! A sink in memory that never fails.

ghost use Rattle.std.specs.Prelude.{◌≡◌, ◌++◌, [], Ok, length, IfOk, OnOk, OnErr, IfErr};

use crate::outside::{OutsideFault, Sink};
use ped_base::{Bytes, NoMemory};
use std::alloc::Global;
use std::marker::Model;

/// A sink that takes whole pieces as long as there is memory. Contracts see the bytes taken.
#[derive(Drop)]
pub struct SureSink {
    taken: Bytes,
}

impl Model for SureSink {
    ghost use Rattle.std.specs.Prelude.{List, ℕ};

    ghost Value = { List ℕ };

    ghost view = { λ sink. sink.taken };
}

impl SureSink {
    /// A sink that has taken nothing yet.
    pub fn new(alloc: Global) -> Result<Self, NoMemory>
        ensures { result ≡ Ok [] }
    {
        Ok(SureSink {
            taken: Bytes::new(alloc),
        })
    }

    /// All bytes taken.
    pub fn taken(&self) -> &[u8]
        ensures { result.now ≡ self.now }
    {
        self.taken.as_slice()
    }
}

impl Sink for SureSink {
    ghost use Rattle.std.specs.Prelude.{Some};
    ghost use Rattle.std.proofs.lemmas.Option.{same_Some};

    ghost taken = { λ sink. Some sink };

    ghost sent = { λ sink. sink };

    ghost taken_sent = { λ s bytes taken. same_Some _ _ taken };

    ghost faults = { λ _. 0 };

    fn write(&mut self, piece: &[u8]) -> Result<usize, OutsideFault>
        ensures ok { IfOk result (λ n. n ≡ length piece.now) }
        ensures taken { OnOk result (self.new ≡ self.old ++ piece.now) }
        ensures err { OnErr result (self.new ≡ self.old) }
        ensures sure { IfErr result (λ fault. fault ≡ OutsideFault.NoMemory) }
    {
        self.taken.extend_from_slice(piece)?;
        Ok(piece.len())
    }
}
