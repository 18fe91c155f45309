//! Copies in memory of the machine's files that words name.

use ped_base::{Bytes, NoMemory};
use ped_io::Files;
use std::alloc::Global;
use std::{fs, rt};

/// The file of each word that is the name of one, under that name.
pub fn files_of<R: rt::Files + AllocGlobal>(rt: &R, words: &[String]) -> Result<Files, NoMemory> {
    let mut files = Files::new(rt.alloc());
    for word in words {
        push_file(rt, &mut files, word.as_str())?;
    }
    Ok(files)
}

/// Adds the file of this name, where there is one.
fn push_file<R: rt::Files + AllocGlobal>(
    rt: &R,
    files: &mut Files,
    name: &str,
) -> Result<(), NoMemory> {
    match fs::read(rt, name) {
        Ok(content) => push(rt.alloc(), files, name.as_bytes(), &content),
        Err(_) => Ok(()),
    }
}

fn push(alloc: Global, files: &mut Files, name: &[u8], content: &[u8]) -> Result<(), NoMemory> {
    let name = copied(alloc, name)?;
    let content = copied(alloc, content)?;
    files.push((name, content))
}

fn copied(alloc: Global, bytes: &[u8]) -> Result<Bytes, NoMemory> {
    let mut copy = Bytes::new(alloc);
    copy.extend_from_slice(bytes)?;
    Ok(copy)
}
