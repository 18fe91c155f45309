//! Standard output.

ghost use Rattle.std.specs.Prelude.{◌≡◌, None, []};
ghost use Rattle.ped_io.specs.Outside.{Rose};

use crate::log::Log;
use ped_io::{OutsideFault, Sink};

/// Standard output. What was taken is noted.
#[derive(Drop)]
pub struct StdSink<'a, P: Print> {
    out: &'a P,
    faults: u64,
    log: Log,
}

impl<'a, P: Print> StdSink<'a, P> {
    /// Standard output, with no fault counted and nothing taken.
    pub fn new(out: &'a P) -> Self
        ensures none { result.faults ≡ 0 }
        ensures log { result.log.events ≡ [] }
    {
        StdSink {
            out,
            faults: 0,
            log: Log::new(),
        }
    }
}

impl<P: Print> Sink for StdSink<'_, P> {
    ghost use Rattle.std.proofs.lemmas.Option.{none-some};
    ghost use Rattle.ped_host.specs.Events.{bytes_of};

    ghost taken = { λ _. None };

    ghost sent = { λ s. bytes_of s.log.events };

    ghost faults = { λ s. s.faults };

    fn write(&mut self, piece: &[u8]) -> Result<usize, OutsideFault> {
        match self.out.write_some(piece) {
            Ok(n) if n > 0 || piece.is_empty() => {
                self.log.note(&[], &[], &piece[..n]);
                Ok(n)
            }
            _ => {
                self.faults = self.faults.saturating_add(1);
                Err(OutsideFault::Failed)
            }
        }
    }

    ghost taken_sent = { λ s bytes taken. absurd (none-some bytes taken) };
}
