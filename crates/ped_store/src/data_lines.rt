//! The data of a run, and what its READs haven't yet taken.

ghost use Rattle.std.specs.Prelude.{◌≡◌, ◌≤◌, ◌<◌, [], ◌∷◌, drop, length, Ok, Err, OnOk, IfOk, IfErr, IfSome, MatchOption};
ghost use Rattle.std.specs.Str.Lines.{lines};
ghost use Rattle.ped_store.specs.DataLines.{not_begun, begun, next_value_of, taken_from};
ghost use Rattle.ped_store.specs.DataPlaces.{data_at, IsPlaceIn};
ghost use Rattle.ped_store.specs.Stores.{bad_data};

use crate::data_text::{blank_count, first_line, separator_len, word_len};
use crate::data_values::number_of;
use crate::faults::RunFault;
use ped_base::NoMemory;
use std::alloc::Global;
use std::marker::Model;

/// Data lines. Contracts see what is left of the line that a READ has begun, and the lines after it.
#[derive(Drop)]
pub struct DataLines {
    input: Vec<u8>,
    place: Place,
}

/// A place in the input.
#[derive(Clone, Copy)]
struct Place {
    /// Where the rest of the present line begins.
    from: usize,
    /// Where the present line ends.
    to: usize,
    /// Where the next line begins.
    next: usize,
}

/// A value, and the place after it.
#[derive(Clone, Copy)]
struct Taken {
    value: i64,
    behind: Place,
}

impl Model for DataLines {
    ghost use Rattle.ped_store.specs.DataLines.{Data};

    ghost Value = { Data };

    ghost use Rattle.ped_store.specs.DataPlaces.{data_at, IsPlaceIn};

    ghost view = { λ d. data_at d.input.items d.place };

    ghost invariant = { λ d. IsPlaceIn d.input.items d.place };
}

impl DataLines {
    /// The lines of the input, none of them begun.
    pub fn new(alloc: Global, input: &[u8]) -> Result<DataLines, NoMemory>
        ensures { IfOk result (λ d. d ≡ not_begun (lines input.now)) }
    {
        Ok(DataLines {
            input: Vec::from_slice(alloc, input)?,
            place: Place {
                from: 0,
                to: 0,
                next: 0,
            },
        })
    }

    /// Begins the next line; what was left of the line before is dropped.
    ///
    /// # Errors
    ///
    /// 5 where there is no line left. Nothing has changed then.
    pub fn next_line(&mut self) -> Result<(), RunFault>
        ensures ok { OnOk result (begun self.old.lines ≡ Ok self.new) }
        ensures err { IfErr result (λ n. (begun self.old.lines ≡ Err n) × (self.new ≡ self.old)) }
    {
        match next_place(&self.input, self.place.next) {
            Some(place) => {
                self.place = place;
                return Ok(());
            }
            None => return Err(RunFault::BAD_DATA),
        }
    }

    /// Takes the next value, from the present line or from those after it.
    ///
    /// # Errors
    ///
    /// 5 where no value is left or what is there is none, and 4 where it isn't from -2^31 to 2^31-1. Nothing has
    /// changed then.
    pub fn next_value(&mut self) -> Result<i64, RunFault>
        ensures ok { IfOk result (λ n. next_value_of self.old ≡ Ok (record { value = n; behind = self.new })) }
        ensures err { IfErr result (λ n. (next_value_of self.old ≡ Err n) × (self.new ≡ self.old)) }
    {
        match take_next_value(&self.input, &self.place) {
            Ok(taken) => {
                self.place = taken.behind;
                return Ok(taken.value);
            }
            Err(fault) => return Err(fault),
        }
    }
}

/// The beginning of the line that begins here; none where there is no such line.
fn next_place(input: &[u8], next: usize) -> Option<Place>
    requires { next ≤ length input.now }
    ensures line { MatchOption result (lines (drop next input.now) ≡ []) (λ p. begun (lines (drop next input.now)) ≡ Ok (data_at input.now p)) }
    ensures within { IfSome result (λ p. IsPlaceIn input.now p × (next < p.next)) }
{
    let first = first_line(&input[next..])?;
    Some(Place {
        from: next,
        to: next + first.len,
        next: next + first.next,
    })
}

/// The value that comes next, and the place after it.
fn take_next_value(input: &[u8], place: &Place) -> Result<Taken, RunFault>
    requires { IsPlaceIn input.now place.now }
    ensures ok { IfOk result (λ t. next_value_of (data_at input.now place.now) ≡ Ok (record { value = t.value; behind = data_at input.now t.behind })) }
    ensures within { IfOk result (λ t. IsPlaceIn input.now t.behind) }
    ensures err { IfErr result (λ n. next_value_of (data_at input.now place.now) ≡ Err n) }
{
    match value_place(input, *place) {
        Some(place) => return take_value(input, &place),
        None => return Err(RunFault::BAD_DATA),
    }
}

/// The place of the next character that is no blank; none where there is none.
fn value_place(input: &[u8], start: Place) -> Option<Place>
    requires { IsPlaceIn input.now start }
    ensures value { MatchOption result (next_value_of (data_at input.now start) ≡ Err bad_data) (λ p. next_value_of (data_at input.now start) ≡ taken_from (data_at input.now p).rest (data_at input.now p).lines) }
    ensures within { IfSome result (λ p. IsPlaceIn input.now p) }
{
    let mut place = start;
    loop {
        let from = place.from + blank_count(&input[place.from..place.to]);
        if from < place.to {
            return Some(Place {
                from,
                to: place.to,
                next: place.next,
            });
        }
        match next_place(input, place.next) {
            Some(next) => place = next,
            None => return None,
        }
    }
}

/// The value that begins at a place, and the place after it.
fn take_value(input: &[u8], place: &Place) -> Result<Taken, RunFault>
    requires { IsPlaceIn input.now place.now }
    ensures ok { IfOk result (λ t. taken_from (data_at input.now place.now).rest (data_at input.now place.now).lines ≡ Ok (record { value = t.value; behind = data_at input.now t.behind })) }
    ensures within { IfOk result (λ t. IsPlaceIn input.now t.behind) }
    ensures err { IfErr result (λ n. taken_from (data_at input.now place.now).rest (data_at input.now place.now).lines ≡ Err n) }
{
    let text = &input[place.from..place.to];
    let word = word_len(text);
    match number_of(&text[..word]) {
        Ok(value) => {
            let from = place.from + word + separator_len(&text[word..]);
            return Ok(Taken {
                value,
                behind: Place {
                    from,
                    to: place.to,
                    next: place.next,
                },
            });
        }
        Err(fault) => return Err(fault),
    }
}
