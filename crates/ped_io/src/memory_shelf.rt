//! A shelf in memory on which chosen reads fail.

ghost use Rattle.std.specs.Prelude.{◌≡◌, ◌≢◌, ◌<◌, ◌≤◌, ◌↔◌, ◌⊎◌, ℕ, List, Some, length, option_map, Contains, IsNone, IfSome, get_or, set, nat_lt, if◌then◌else◌, IfOk, IfErr, OnOk, OnErr, IsErrOf};
ghost use Rattle.ped_io.specs.Counts.{one_more};
ghost use Rattle.ped_io.specs.Outside.{Contents, file_named, content, held_content, IsHeld, GivesPart, Rose};
ghost use Rattle.ped_io.specs.Shelves.{MemoryShelf, new_shelf, told_of, count_of, FailsNext, after_call, after_fault, Copies};

use crate::counting::{Calls, is_among, one_more};
use crate::held_files::{Files, content_of, copy_part, place_of};
use crate::outside::{OutsideFault, Shelf};
use ped_base::NoMemory;
use std::alloc::Global;
use std::marker::Model;

/// Files in memory, of which some reads fail: those whose numbers are in a list, and those for a
/// name that isn't held. Contracts see a plain record of all that it keeps.
#[derive(Drop)]
pub struct MemShelf {
    files: Files,
    fails: Calls,
    most: usize,
    calls: u64,
    counts: Vec<u64>,
    other_faults: u64,
}

impl Model for MemShelf {
    ghost use Rattle.std.specs.Prelude.{◌≡◌, ◌≤◌, length};
    ghost use Rattle.ped_io.specs.Shelves.{MemoryShelf};

    ghost Value = { MemoryShelf };

    ghost view = { λ shelf. record {
      files = shelf.files;
      fails = shelf.fails;
      most = shelf.most;
      calls = shelf.calls;
      counts = shelf.counts.items;
      other_faults = shelf.other_faults;
    } };

    ghost invariant = { λ shelf.
        (1 ≤ shelf.most) × (length shelf.counts.items ≡ length shelf.files) };
}

impl MemShelf {
    /// A shelf of these files, whose reads give at most `most` bytes, and fail at these calls.
    pub fn new(alloc: Global, files: Files, fails: Calls, most: usize) -> Result<Self, NoMemory>
        requires { 1 ≤ most }
        ensures shelf { IfOk result (λ shelf. shelf ≡ new_shelf files fails most) }
        ensures no_faults { IfOk result (λ shelf. (name : List ℕ) → count_of shelf name ≡ 0) }
    {
        let counts = vec![in alloc; 0; files.len()]?;
        Ok(MemShelf {
            files,
            fails,
            most,
            calls: 0,
            counts,
            other_faults: 0,
        })
    }
}

impl Shelf for MemShelf {
    ghost use Rattle.std.specs.Prelude.{◌≡◌, [], Some};
    ghost use Rattle.ped_io.specs.Shelves.{told_of, count_of};

    ghost told = { λ shelf. Some (told_of shelf) };

    ghost may_hold = { λ shelf files. Some (told_of shelf) ≡ Some files };

    ghost told_held = { λ s files told. told };

    ghost count = { count_of };

    ghost read_names = { λ _. [] };

    fn read_at(&mut self, name: &str, at: u64, piece: &mut [u8]) -> Result<usize, OutsideFault>
        // The exact behaviour: a call fails by its number or since there is no such file, and only so.
        ensures fails { IsErrOf result OutsideFault.Failed ↔ FailsNext self.old name.now }
        ensures sure { IfErr result (λ fault. fault ≡ OutsideFault.Failed) }
        ensures read { IfOk result (λ n. (bytes : List ℕ)
            × (held_content (told_of self.old) name.now ≡ Some bytes)
            × Copies bytes at self.old.most n piece.old piece.new) }
        ensures unread { OnErr result (piece.new ≡ piece.old) }
        ensures ok { OnOk result (self.new ≡ after_call self.old) }
        ensures err { OnErr result (self.new ≡ after_fault self.old name.now) }

        // What any shelf ensures.
        ensures within { IfOk result (λ n. n ≤ length piece.old) }
        ensures given { IfOk result (λ n. (files : Contents) →
            Some (told_of self.new) ≡ Some files →
            (bytes : List ℕ) × (content files name.now ≡ Some bytes)
            × GivesPart bytes at n piece.old piece.new) }
        ensures cause { IsErrOf result OutsideFault.Failed →
            Rose (count_of self.old name.now) (count_of self.new name.now) }
        ensures counts { (m : List ℕ) → count_of self.old m ≤ count_of self.new m }
        ensures others { (files : Contents) → Some (told_of self.old) ≡ Some files →
            (m : List ℕ) → m ≢ name.now → IsHeld files m →
            count_of self.new m ≡ count_of self.old m }
        ensures less { (files : Contents) → Some (told_of self.new) ≡ Some files →
            Some (told_of self.old) ≡ Some files }
        ensures same { Some (told_of self.new) ≡ Some (told_of self.old) }
    {
        self.calls = one_more(self.calls);
        let Some(content) = content_to_read(&self.files, &self.fails, self.calls, name) else {
            let place = place_of(&self.files, name);
            return Err(count_fault(&mut self.counts, &mut self.other_faults, place));
        };
        Ok(copy_part(content, at, self.most, piece))
    }
}

/// The content that a call reads, if it isn't to fail and the name is held.
fn content_to_read<'a>(files: &'a Files, fails: &Calls, call: u64, name: &str) -> Option<&'a [u8]>
    ensures fails { IsNone result
        ↔ (Contains fails.now call ⊎ IsNone (file_named files.now name.now)) }
    ensures content { IfSome result (λ content.
        option_map (λ file. file.1) (file_named files.now name.now) ≡ Some content.now) }
{
    if is_among(fails, call) {
        return None;
    }
    content_of(files, name)
}

/// Counts a fault of the file at a place, or of the other names past the end, and answers it.
fn count_fault(counts: &mut [u64], others: &mut u64, place: usize) -> OutsideFault
    ensures failed { result ≡ OutsideFault.Failed }
    ensures file { counts.new ≡ set counts.old place (one_more (get_or counts.old place 0)) }
    ensures other { others.new
        ≡ (if nat_lt place (length counts.old) then others.old else one_more others.old) }
    ensures rose { Rose (get_or counts.old place others.old) (get_or counts.new place others.new) }
    ensures counts { (k : ℕ) → get_or counts.old k others.old ≤ get_or counts.new k others.new }
    ensures kept { (k : ℕ) → k < length counts.old → k ≢ place →
        get_or counts.new k others.new ≡ get_or counts.old k others.old }
{
    if place < counts.len() {
        counts[place] = one_more(counts[place]);
    } else {
        *others = one_more(*others);
    }
    OutsideFault::Failed
}
