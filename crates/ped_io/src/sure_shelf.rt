//! A shelf in memory that never fails.

ghost use Rattle.std.specs.Prelude.{◌≡◌, ◌≤◌, ℕ, List, Some, Ok, length, IfOk, IsOk};
ghost use Rattle.ped_io.specs.Outside.{Contents, content, GivesPart};
ghost use Rattle.ped_io.specs.Shelves.{all_names, Copies};

use crate::held_files::{Files, content_of, copy_part};
use crate::outside::{OutsideFault, Shelf};
use ped_base::NoMemory;
use std::alloc::Global;
use std::marker::Model;

/// Files in memory; every other name holds the empty text. Contracts see the files.
#[derive(Drop)]
pub struct SureShelf {
    files: Files,
}

impl Model for SureShelf {
    ghost use Rattle.std.specs.Prelude.{List, ℕ};

    ghost Value = { List (List ℕ × List ℕ) };

    ghost view = { λ shelf. shelf.files };
}

impl SureShelf {
    /// A shelf of these files.
    pub fn new(_alloc: Global, files: Files) -> Result<Self, NoMemory>
        ensures { result ≡ Ok files }
    {
        Ok(SureShelf { files })
    }
}

impl Shelf for SureShelf {
    ghost use Rattle.std.specs.Prelude.{◌≡◌, [], Some};
    ghost use Rattle.ped_io.specs.Shelves.{all_names};

    ghost told = { λ files. Some (all_names files) };

    ghost may_hold = { λ s files. Some (all_names s) ≡ Some files };

    ghost told_held = { λ s files told. told };

    ghost count = { λ _ _. 0 };

    ghost read_names = { λ _. [] };

    fn read_at(&mut self, name: &str, at: u64, piece: &mut [u8]) -> Result<usize, OutsideFault>
        // The exact behaviour.
        ensures sure { IsOk result }
        ensures read { IfOk result (λ n. (bytes : List ℕ)
            × (content (all_names self.old) name.now ≡ Some bytes)
            × Copies bytes at (length piece.old) n piece.old piece.new) }
        ensures unchanged { self.new ≡ self.old }

        // What any shelf ensures.
        ensures within { IfOk result (λ n. n ≤ length piece.old) }
        ensures given { IfOk result (λ n. (files : Contents) →
            Some (all_names self.new) ≡ Some files →
            (bytes : List ℕ) × (content files name.now ≡ Some bytes)
            × GivesPart bytes at n piece.old piece.new) }
        ensures less { (files : Contents) → Some (all_names self.new) ≡ Some files →
            Some (all_names self.old) ≡ Some files }
        ensures same { Some (all_names self.new) ≡ Some (all_names self.old) }
    {
        let Some(content) = content_of(&self.files, name) else {
            return Ok(0);
        };
        Ok(copy_part(content, at, piece.len(), piece))
    }
}
