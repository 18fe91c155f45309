//! Calls of `ped_main` with shelves and sinks in memory.

ghost use Rattle.std.specs.Prelude.{◌≤◌, IfSome};

use ped_answer::{Status, answer_surely, ped_main};
use ped_io::{Calls, Files, MemShelf, MemSink, SureShelf, SureSink};
use ped_verdict::Steps;
use std::alloc::Global;
use std::sync::ledger::Ledger;

/// What a sink has taken in a call, and how the call ended.
#[derive(Drop)]
pub struct Ending {
    pub status: Status,
    pub taken: String,
}

/// Answers words over a shelf and a sink that never fail; none where there is no memory for them.
pub fn surely<L: Ledger>(
    alloc: Global,
    files: Files,
    words: &[String],
    steps: &mut Steps<L>,
) -> Option<Ending> {
    let mut shelf = SureShelf::new(alloc, files).ok()?;
    let mut sink = SureSink::new(alloc).ok()?;
    let status = answer_surely(alloc, words, &mut shelf, &mut sink, steps);
    with_taken(alloc, status, sink.taken())
}

/// Answers words over a shelf and a sink of which some calls fail. `faults` says how many bytes a read gives at the
/// most and which reads fail, and the same of writes. None where that is said otherwise, or where there is no memory.
pub fn failing<L: Ledger>(
    alloc: Global,
    files: Files,
    faults: [&String; 4],
    words: &[String],
    steps: &mut Steps<L>,
) -> Option<Ending> {
    let [read, reads, write, writes] = faults;
    let mut shelf = failing_shelf(alloc, files, read.as_str(), reads.as_str())?;
    into_sink(alloc, &mut shelf, [write, writes], words, steps)
}

/// Answers words over a shelf and a sink of which some writes fail.
fn into_sink<L: Ledger>(
    alloc: Global,
    shelf: &mut MemShelf,
    faults: [&String; 2],
    words: &[String],
    steps: &mut Steps<L>,
) -> Option<Ending> {
    let [write, writes] = faults;
    let mut sink = failing_sink(alloc, write.as_str(), writes.as_str())?;
    let status = ped_main(alloc, words, shelf, &mut sink, steps);
    with_taken(alloc, status, sink.taken())
}

/// A shelf whose reads give at most this many bytes, and of which these calls fail.
fn failing_shelf(alloc: Global, files: Files, most: &str, fails: &str) -> Option<MemShelf> {
    let most = positive(most)?;
    let fails = calls(alloc, fails)?;
    MemShelf::new(alloc, files, fails, most).ok()
}

/// A sink whose writes take at most this many bytes, and of which these calls fail.
fn failing_sink(alloc: Global, most: &str, fails: &str) -> Option<MemSink> {
    let most = positive(most)?;
    let fails = calls(alloc, fails)?;
    MemSink::new(alloc, fails, most).ok()
}

/// A number that isn't 0.
fn positive(digits: &str) -> Option<usize>
    ensures { IfSome result (λ n. 1 ≤ n) }
{
    match digits.parse::<usize>() {
        Ok(n) if n > 0 => Some(n),
        _ => None,
    }
}

/// The numbers of calls, which count from 1, with commas between them; so `0` is none.
fn calls(alloc: Global, numbers: &str) -> Option<Calls> {
    let mut calls = Calls::new(alloc);
    for number in numbers.split(',') {
        calls.push(number.parse::<u64>().ok()?).ok()?;
    }
    Some(calls)
}

fn with_taken(alloc: Global, status: Status, taken: &[u8]) -> Option<Ending> {
    let taken = String::from_utf8_lossy(alloc, taken).ok()?;
    Some(Ending { status, taken })
}
