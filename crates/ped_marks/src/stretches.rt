//! The entries of the marks, by the places at which they begin. An entry is a running iteration or a stretch
//! of finished ones.

ghost use Rattle.std.specs.Prelude.{◌≡◌, ℕ, is_some, true, if◌then◌else◌, ◌==◌};
ghost use Rattle.std.specs.Ordering.{nat_cmp};
ghost use Rattle.std.specs.BTreeMap.{get};
ghost use Rattle.std.specs.declared.option.Option.TheVariants.{None, Some};
ghost use Rattle.ped_marks.specs.Stretches.{IsLast, said_last, first_open, end_from, IsStart, with_entry};

use crate::marks::Mark;
use std::collections::BTreeMap;

/// What begins at a place: an iteration that is running, with the key of its task, or a stretch of finished
/// iterations, with the place after it.
#[derive(Clone, Copy, Drop)]
pub enum Stretch {
    /// One iteration that is running.
    Running(usize),
    /// Finished iterations.
    Done(u64),
}

/// The last entry at a place or before it.
pub fn last_up_to(map: &BTreeMap<u64, Stretch>, place: u64) -> Option<(u64, Stretch)>
    ensures { IsLast (get nat_cmp map.now) place result }
{
    match map.range(..=place).next_back() {
        Some((start, stretch)) => Some((*start, *stretch)),
        None => None,
    }
}

/// What is known of a place by the last entry at it or before it.
pub fn mark_by(last: Option<(u64, Stretch)>, place: u64) -> Mark
    ensures { result ≡ said_last place last }
{
    match last {
        Some((start, Stretch::Running(key))) if place <= start => Mark::Running(key),
        Some((_, Stretch::Done(end))) if place < end => Mark::Done,
        _ => Mark::Waits,
    }
}

/// The place after the stretch of finished iterations that covers a place, by the last entry at it or before
/// it; that place, where none does.
pub fn first_open(last: Option<(u64, Stretch)>, place: u64) -> u64
    ensures { result ≡ first_open place last }
{
    match last {
        Some((_, Stretch::Done(end))) if place < end => end,
        _ => place,
    }
}

/// Where a stretch of finished iterations ends that begins at a place: there, where none does.
pub fn end_from(map: &BTreeMap<u64, Stretch>, place: u64) -> u64
    ensures { result ≡ end_from place (get nat_cmp map.now place) }
{
    match map.get(&place) {
        Some(Stretch::Done(end)) => *end,
        _ => place,
    }
}

/// Where a stretch of finished iterations begins that ends at a place: there, where none does.
pub fn start_up_to(map: &BTreeMap<u64, Stretch>, place: u64) -> u64
    ensures { IsStart (get nat_cmp map.now) place result }
{
    if place == 0 {
        return place;
    }
    match last_up_to(map, place - 1) {
        Some((start, Stretch::Done(end))) if end == place => start,
        _ => place,
    }
}

/// Takes the entry out at a place, unless it is this other place.
pub fn take_out(map: &mut BTreeMap<u64, Stretch>, place: u64, unless: u64)
    ensures { (k : ℕ) → get nat_cmp map.new k ≡ (if place == unless then get nat_cmp map.old k else with_entry (get nat_cmp map.old) place None k) }
{
    if place != unless {
        let _ = map.remove(&place);
    }
}

/// Replaces an existing entry by another one, without memory.
pub fn replace(map: &mut BTreeMap<u64, Stretch>, place: u64, stretch: Stretch)
    requires { is_some (get nat_cmp map.old place) ≡ true }
    ensures { (k : ℕ) → get nat_cmp map.new k ≡ with_entry (get nat_cmp map.old) place (Some stretch) k }
{
    let _ = map.insert(place, stretch);
}
