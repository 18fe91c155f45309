//! The program `ped`: a source editor for loop parallelisation. What is proved is the contract of `answered`: it is
//! `ped_main` of ped_answer over the machine's files and standard output. `main` passes it the words of the call, and
//! exits with its status.
#![tactic(auto)]

ghost use Rattle.std.specs.Prelude.{◌≡◌, ◌<◌, ◌++◌, ℕ, List, map, string_bytes};
ghost use Rattle.ped_host.specs.Events.{bytes_of};
ghost use Rattle.ped_host.specs.Reads.{MayHold, names_of, failures};
ghost use Rattle.ped_answer.specs.ped_io.specs.Outside.{Contents, AddsOnly, Rose};
ghost use Rattle.ped_answer.specs.ped_words.specs.Requests.{request_of};
ghost use Rattle.ped_answer.specs.Answer.{inputs_of, IsOneOf, AgreeOn, HasRead, IsWhole, MayAnswer, Sends};
ghost use Rattle.ped_answer.specs.Headline.{IsHeadline};
ghost use Rattle.ped_answer.specs.TestCounts.{Tests, Ticks};

use ped_answer::{Status, ped_main};
use ped_host::{DiskShelf, StdSink};
use ped_verdict::Steps;
use std::alloc::Global;
use std::env::Env;
use std::marker::Brand;
use std::process::ExitCode;
use std::rt::Files;
use std::sync::ledger::{Blank, Ledger};
use std::{env, io};

fn main(rt: HostRuntime) -> ExitCode {
    ExitCode::from(called::<Brand, _>(&rt, Blank::new(1)).number())
}

/// Answers the words of the call, with the only counter of dependence tests. Where one of them is no text, none are
/// answered; where memory runs out before that, nothing is written.
fn called<L: Ledger, R: Env + Files + Print + AllocGlobal>(rt: &R, blank: Blank) -> Status
    requires name { blank.name ≡ L.name }
    requires parts { blank.parts ≡ L.parts }
    requires some { 0 < L.parts }
{
    let alloc = rt.alloc();
    let mut shelf = DiskShelf::new(alloc, rt);
    let mut out = StdSink::new(rt);
    let mut steps = Steps::<L>::new(blank);
    match words(rt) {
        Ok(words) => answered(alloc, &words, &mut shelf, &mut out, &mut steps),
        Err(e) if e.kind() == io::ErrorKind::OutOfMemory => Status::NoMemory,
        Err(_) => answered(alloc, &[], &mut shelf, &mut out, &mut steps),
    }
}

/// Answers the words by the machine's files and standard output. What is said about it is said about all files that may
/// hold what the reads have given, and of the bytes that writes have answered to have taken.
fn answered<L: Ledger, R: Files + Print>(
    alloc: Global,
    words: &[String],
    shelf: &mut DiskShelf<R>,
    out: &mut StdSink<R>,
    steps: &mut Steps<L>,
) -> Status
    // The bytes written and the status are those of the answer, unless a read, a write or the memory kept it from being
    // written whole. The line of status 3 names a file of which a read has failed, and those before it in the words were read.
    ensures answer { (files : Contents) → MayHold files shelf.new.log.events →
        Sends (MayAnswer (request_of (map string_bytes words.now)) files
        (λ name. Rose (failures shelf.old.log.events name) (failures shelf.new.log.events name)))
        (Rose out.old.faults out.new.faults) (bytes_of out.old.log.events) (bytes_of out.new.log.events) result }

    // Whatever the files hold, status 3 comes only where a read of a file of the words has failed.
    ensures read_fault { result ≡ Status.ReadFault →
        (name : List ℕ) × IsOneOf (inputs_of (request_of (map string_bytes words.now))) name
        × Rose (failures shelf.old.log.events name) (failures shelf.new.log.events name) }

    // Whatever the files hold, status 4 comes only where a write has failed.
    ensures write_fault { result ≡ Status.WriteFault → Rose out.old.faults out.new.faults }

    // Each read was of a file of the words, whatever came of it.
    ensures names { AddsOnly (IsOneOf (inputs_of (request_of (map string_bytes words.now))))
        (names_of shelf.old.log.events) (names_of shelf.new.log.events) }

    // Where the status is 0, 1 or 5, all such files hold the same under the names of the words.
    ensures known { HasRead result → (files others : Contents) → MayHold files shelf.new.log.events →
        MayHold others shelf.new.log.events → AgreeOn (inputs_of (request_of (map string_bytes words.now))) files others }

    // Where the answer was written whole, all parts of the headline are so of the bytes written.
    ensures headline { (files : Contents) → MayHold files shelf.new.log.events → IsWhole result →
        (bytes : List ℕ) × (bytes_of out.new.log.events ≡ bytes_of out.old.log.events ++ bytes)
        × IsHeadline (request_of (map string_bytes words.now)) files bytes }

    // As many dependence tests were made as the answer takes.
    ensures tests { (files : Contents) → MayHold files shelf.new.log.events →
        (n : ℕ) × Tests (request_of (map string_bytes words.now)) files n × Ticks result steps.old steps.new n }
{
    ped_main(alloc, words, shelf, out, steps)
}

/// The words after the program's name; an error where one of them is no text.
fn words(rt: &(impl Env + AllocGlobal)) -> io::Result<Vec<String>> {
    Ok(env::args(rt)?.skip(1).collect(rt.alloc())?)
}
