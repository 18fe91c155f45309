//! What the program asks of the outside: to read files by name and to take bytes.

ghost use Rattle.std.specs.Prelude.{◌≡◌, ◌≢◌, ◌≤◌, ◌++◌, ℕ, List, Option, Some, length, take, option_map, IfOk, OnErr, IsErrOf};
ghost use Rattle.ped_io.specs.Outside.{Contents, content, AddsOnly, IsHeld, GivesPart, Rose};

use ped_base::NoMemory;
use thiserror::Error;

/// Why the outside didn't do what it was asked.
#[derive(Clone, Copy, Debug, PartialEq, Eq, Error)]
pub enum OutsideFault {
    /// The outside failed, and has counted this fault.
    #[error("the outside failed")]
    Failed,
    /// There was not enough memory; nothing was read or taken.
    #[error("out of memory")]
    NoMemory,
}

impl From<NoMemory> for OutsideFault {
    ghost use Rattle.ped_io.specs.declared.outside.OutsideFault.TheVariants as fault;

    ghost from_gives = { λ _ e. e ≡ fault.NoMemory };

    fn from(_: NoMemory) -> Self {
        OutsideFault::NoMemory
    }
}

/// Files that are read by name. What every shelf keeps to: how many bytes a read gives, and which; and that a fault
/// has been counted.
pub trait Shelf {
    /// The files, where the shelf reports them.
    ghost told: { Self → Option Contents };

    /// The files may hold this, by all that reads have given so far.
    ghost may_hold: { Self → Contents → Type 0 };

    /// How many faults the reads of a name have met.
    ghost count: { Self → List ℕ → ℕ };

    /// The names of which reads were asked, the newest first, as far as the shelf notes them.
    ghost read_names: { Self → List (List ℕ) };

    /// Reads bytes of a file from `at` on into the piece's front, and returns how many. No byte is
    /// given only where the piece has no room or the file has no byte there.
    fn read_at(&mut self, name: &str, at: u64, piece: &mut [u8]) -> Result<usize, OutsideFault>
        ensures within { IfOk result (λ n. n ≤ length piece.old) }

        // A name that holds nothing is never read.
        ensures given { IfOk result (λ n. (files : Contents) → may_hold self.new files →
            (bytes : List ℕ) × (content files name.now ≡ Some bytes)
            × GivesPart bytes at n piece.old piece.new) }

        // What the files may hold after a read, they might hold before it, too.
        ensures less { (files : Contents) → may_hold self.new files → may_hold self.old files }

        ensures cause { IsErrOf result OutsideFault.Failed →
            Rose (count self.old name.now) (count self.new name.now) }
        ensures counts { (m : List ℕ) → count self.old m ≤ count self.new m }
        ensures others { (files : Contents) → told self.old ≡ Some files →
            (m : List ℕ) → m ≢ name.now → IsHeld files m → count self.new m ≡ count self.old m }
        ensures same { told self.new ≡ told self.old }

        // No other name is noted.
        ensures names { AddsOnly (λ m. m ≡ name.now) (read_names self.old) (read_names self.new) };

    /// The files that are reported may be held.
    ghost told_held: { (s : Self) (files : Contents) → told s ≡ Some files → may_hold s files };
}

/// A place that takes bytes. What every sink keeps to: how many bytes it takes, and which; and that a fault has been
/// counted.
pub trait Sink {
    /// All bytes taken so far, where the sink reports them.
    ghost taken: { Self → Option (List ℕ) };

    /// All bytes that writes have answered to have taken.
    ghost sent: { Self → List ℕ };

    /// How many faults the writes have met.
    ghost faults: { Self → ℕ };

    /// Takes bytes from the piece's front, and returns how many: at least one, where there is one.
    fn write(&mut self, piece: &[u8]) -> Result<usize, OutsideFault>
        ensures within { IfOk result (λ n. n ≤ length piece.now) }
        ensures some { IfOk result (λ n. n ≡ 0 → length piece.now ≡ 0) }
        ensures took { IfOk result (λ n. taken self.new
            ≡ option_map (λ before. before ++ take n piece.now) (taken self.old)) }
        ensures err { OnErr result (taken self.new ≡ taken self.old) }
        ensures sent { IfOk result (λ n. sent self.new ≡ sent self.old ++ take n piece.now) }
        ensures unsent { OnErr result (sent self.new ≡ sent self.old) }
        ensures cause { IsErrOf result OutsideFault.Failed →
            Rose (faults self.old) (faults self.new) }
        ensures counts { faults self.old ≤ faults self.new };

    /// Where the bytes taken are reported, they are those sent.
    ghost taken_sent: { (s : Self) (bytes : List ℕ) → taken s ≡ Some bytes → sent s ≡ bytes };
}
