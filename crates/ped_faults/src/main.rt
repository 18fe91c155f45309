//! Answers words as `ped` does, with a shelf and a sink in memory. Some of their calls fail, or none. Tables of faults
//! use it for what no file of the machine shows: a read or a write that fails in mid-stream, and pieces of a few bytes.
//! `tools/check-faults.sh` runs it on handwritten cases. It promises nothing beyond what `ped_main` promises.
#![tactic(auto)]

ghost use Rattle.std.specs.Prelude.{◌≡◌, ◌<◌};

mod faults;
mod files;

use faults::{Ending, failing, surely};
use files::files_of;
use ped_verdict::Steps;
use std::env::Env;
use std::marker::Brand;
use std::process::ExitCode;
use std::rt::Files;
use std::sync::ledger::{Blank, Ledger};
use std::{env, io};

fn main(rt: HostRuntime) -> io::Result<ExitCode> {
    match answered::<Brand, _>(&rt, Blank::new(1)) {
        Some(ending) => {
            print!(rt; "{}", ending.taken)?;
            Ok(ExitCode::from(ending.status.number()))
        }
        None => {
            println!(rt; "usage: ped_faults READ READS WRITE WRITES WORD.. | sure WORD..")?;
            Ok(ExitCode::SUCCESS)
        }
    }
}

/// Answers the words; none where they are of no form, or where there is no memory for them and their files.
fn answered<L: Ledger, R: Env + Files + AllocGlobal>(rt: &R, blank: Blank) -> Option<Ending>
    requires name { blank.name ≡ L.name }
    requires parts { blank.parts ≡ L.parts }
    requires some { 0 < L.parts }
{
    let words = words(rt)?;
    let mut steps = Steps::<L>::new(blank);
    over_files(rt, &words, &mut steps)
}

/// The words after the program's name.
fn words(rt: &(impl Env + AllocGlobal)) -> Option<Vec<String>> {
    env::args(rt).ok()?.skip(1).collect(rt.alloc()).ok()
}

/// Answers the words over the files that they name.
fn over_files<L: Ledger, R: Files + AllocGlobal>(
    rt: &R,
    words: &[String],
    steps: &mut Steps<L>,
) -> Option<Ending> {
    let files = files_of(rt, words).ok()?;
    match words {
        [first, rest @ ..] if first.as_str() == "sure" => surely(rt.alloc(), files, rest, steps),
        [read, reads, write, writes, rest @ ..] => {
            failing(rt.alloc(), files, [read, reads, write, writes], rest, steps)
        }
        _ => None,
    }
}
