//! Files in memory, which are found by their names.

ghost use Rattle.std.specs.Prelude.{◌≡◌, position, option_map, option_copied};
ghost use Rattle.ped_base.specs.Lists.{is_same_text};
ghost use Rattle.ped_io.specs.Outside.{file_named};
ghost use Rattle.ped_io.specs.Shelves.{place_of, Copies};

use ped_base::{Bytes, Listed};

/// Names with their contents. If a name occurs twice, the first counts.
pub type Files = Listed<(Bytes, Bytes)>;

/// The place of the first file of a name, or the number of files where there is none.
pub(crate) fn place_of(files: &Files, name: &str) -> usize
    ensures { result ≡ place_of files.now name.now }
{
    first_of(files.as_slice(), name.as_bytes()).unwrap_or(files.len())
}

fn first_of(files: &[(Bytes, Bytes)], name: &[u8]) -> Option<usize>
    ensures { result ≡ position (λ file. is_same_text file.0 name.now) files.now }
{
    files.iter().position(|file| file.0.as_slice() == name)
}

/// The content of the first file of a name, where there is one.
pub(crate) fn content_of<'a>(files: &'a Files, name: &str) -> Option<&'a [u8]>
    ensures { option_copied result ≡ option_map (λ file. file.1) (file_named files.now name.now) }
{
    file_named(files.as_slice(), name.as_bytes()).map(|file| file.1.as_slice())
}

fn file_named<'a>(files: &'a [(Bytes, Bytes)], name: &[u8]) -> Option<&'a (Bytes, Bytes)>
    ensures { option_copied result ≡ file_named files.now name.now }
{
    files.iter().find(|file| file.0.as_slice() == name)
}

/// Copies the bytes from `at` on into the piece's front, no more than `most`, and returns how many.
pub(crate) fn copy_part(bytes: &[u8], at: u64, most: usize, piece: &mut [u8]) -> usize
    ensures { Copies bytes.now at most result piece.old piece.new }
{
    if bytes.len() as u64 <= at {
        return 0;
    }
    let rest = &bytes[at as usize..];
    let n = most.min(piece.len().min(rest.len()));
    piece[..n].copy_from_slice(&rest[..n]);
    n
}
