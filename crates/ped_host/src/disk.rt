//! The machine's files.

ghost use Rattle.std.specs.Prelude.{◌≡◌, ◌≤◌, IfOk, None, [], length};

use crate::log::Log;
use ped_io::{OutsideFault, Shelf};
use std::alloc::Global;
use std::io::{Read, Seek, SeekFrom};
use std::rt::Files;
use std::{fs, io};

/// The machine's files by their paths. One file at a time stays open, so that it is read on where the
/// last read ended. Each read is noted: its name, and what it gave or that it failed.
#[derive(Drop)]
pub struct DiskShelf<'a, R: Files> {
    files: &'a R,
    alloc: Global,
    open: Option<OpenFile<R::File>>,
    log: Log,
}

#[derive(Drop)]
struct OpenFile<F> {
    name: String,
    file: F,
    at: u64,
}

impl<'a, R: Files> DiskShelf<'a, R> {
    /// The machine's files, of which nothing was read.
    pub fn new(alloc: Global, files: &'a R) -> Self
        ensures { result.log.events ≡ [] }
    {
        DiskShelf {
            files,
            alloc,
            open: None,
            log: Log::new(),
        }
    }

    /// Reads on in the open file, or in the file of this name from this place on. No contract says which file and which
    /// place that is.
    fn read_on(&mut self, name: &str, at: u64, piece: &mut [u8]) -> io::Result<usize>
        ensures within { IfOk result (λ n. n ≤ length piece.old) }
        ensures log { self.new.log ≡ self.old.log }
    {
        let kept = String::from_str(self.alloc, name)?;
        let mut file = match self.open.take() {
            Some(open) if open.at == at && open.name.as_str() == name => open.file,
            _ => open_at(self.files, name, at)?,
        };
        let n = file.read(piece)?;
        if let Some(at) = at.checked_add(n as u64) {
            self.open = Some(OpenFile {
                name: kept,
                file,
                at,
            });
        }
        Ok(n)
    }
}

/// Opens the file of this name at this place.
fn open_at<R: Files>(files: &R, name: &str, at: u64) -> io::Result<R::File> {
    let mut file = fs::open(files, name)?;
    if at > 0 {
        file.seek(SeekFrom::Start(at))?;
    }
    Ok(file)
}

impl<R: Files> Shelf for DiskShelf<'_, R> {
    ghost use Rattle.std.proofs.lemmas.Option.{none-some};
    ghost use Rattle.ped_host.specs.Reads.{MayHold, names_of, failures};

    ghost told = { λ _. None };

    ghost may_hold = { λ s files. MayHold files s.log.events };

    ghost count = { λ s name. failures s.log.events name };

    ghost read_names = { λ s. names_of s.log.events };

    fn read_at(&mut self, name: &str, at: u64, piece: &mut [u8]) -> Result<usize, OutsideFault> {
        let room = piece.len() as u64;
        match self.read_on(name, at, piece) {
            Ok(n) => {
                self.log.note(name.as_bytes(), &[at, room], &piece[..n]);
                Ok(n)
            }
            Err(e) if e.kind() == io::ErrorKind::OutOfMemory => {
                self.log.note(name.as_bytes(), &[at], &[]);
                Err(OutsideFault::NoMemory)
            }
            Err(_) => {
                self.log.note(name.as_bytes(), &[], &[]);
                Err(OutsideFault::Failed)
            }
        }
    }

    ghost told_held = { λ s files told. absurd (none-some files told) };
}
