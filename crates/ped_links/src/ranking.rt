//! Numbers to which arrows may lead back. A number to which no remaining number has an arrow gets a rank and is
//! removed. Where ranks rise along arrows, none leads back to a ranked number.

ghost use Rattle.std.specs.Prelude.{◌≡◌, ◌↔◌, ◌<◌, ◌||◌, ◌==◌, [], ◌∷◌, ℕ, IfOk, OnOk, IsTrue, length, map, not, replicate};
ghost use Rattle.ped_links.specs.ArrowViews.{ends_of};
ghost use Rattle.ped_links.specs.Reaching.{Leads, IsReached, AreBelow, IsMarked};
ghost use Rattle.ped_links.specs.Ranking.{Rise, RisesTo, RiseFrom};

use crate::reaching::Arrows;
use ped_base::NoMemory;
use std::alloc::Global;

/// Which numbers arrows may lead back to. All to which they do are among them.
pub fn may_return(alloc: Global, arrows: &Arrows) -> Result<Vec<bool>, NoMemory>
    ensures wide { IfOk result (λ marks. length marks.items ≡ length (ends_of arrows.now)) }
    ensures marked { IfOk result (λ marks. (i j : ℕ) → Leads (ends_of arrows.now) i j → IsReached (ends_of arrows.now) (j ∷ []) i → IsMarked marks.items i) }
{
    let ranks = ranks(alloc, arrows)?;
    let rising = rise(arrows, &ranks);
    unranked(alloc, rising, &ranks)
}

/// Which numbers have no rank; all where ranks don't rise.
fn unranked(alloc: Global, rising: bool, ranks: &[usize]) -> Result<Vec<bool>, NoMemory>
    ensures { IfOk result (λ marks. marks.items ≡ map (λ r. not rising || (r == 0)) ranks.now) }
{
    let mut marks = Vec::new(alloc);
    for rank in ranks {
        marks.push(is_unranked(rising, *rank))?;
    }
    Ok(marks)
}

/// Whether this is no rank, or ranks don't rise.
fn is_unranked(rising: bool, rank: usize) -> bool
    ensures { result ≡ (not rising || (rank == 0)) }
{
    !rising || rank == 0
}

/// Whether ranks rise along arrows.
fn rise(arrows: &Arrows, ranks: &[usize]) -> bool
    requires { length ranks.now ≡ length (ends_of arrows.now) }
    ensures { IsTrue result ↔ Rise (ends_of arrows.now) ranks.now }
{
    for from in 0..arrows.count() {
        if !rise_from(ranks, from, arrows.ends(from)) {
            return false;
        }
    }
    true
}

/// Whether ranks rise from a number to these.
fn rise_from(ranks: &[usize], from: usize, ends: &[usize]) -> bool
    requires from { from < length ranks.now }
    requires ends { AreBelow (length ranks.now) ends.now }
    ensures { IsTrue result ↔ RiseFrom ranks.now from ends.now }
{
    for to in ends {
        if !rises(ranks, from, *to) {
            return false;
        }
    }
    true
}

/// Whether ranks rise from one number to another, where this has a rank.
fn rises(ranks: &[usize], from: usize, to: usize) -> bool
    requires from { from < length ranks.now }
    requires to { to < length ranks.now }
    ensures { IsTrue result ↔ RisesTo ranks.now from to }
{
    ranks[to] == 0 || (ranks[from] > 0 && ranks[from] < ranks[to])
}

/// A rank for each number that can be taken away, from 1 on; 0 for the others.
fn ranks(alloc: Global, arrows: &Arrows) -> Result<Vec<usize>, NoMemory>
    ensures { IfOk result (λ ranks. length ranks.items ≡ length (ends_of arrows.now)) }
{
    let mut counts = arrow_counts(alloc, arrows)?;
    let mut waiting = places_of_zeros(alloc, &counts)?;
    let mut ranks = zeros(alloc, arrows.count())?;
    for rank in 0..arrows.count() {
        match waiting.pop() {
            Some(number) => {
                ranks[number] = rank + 1;
                count_down(&mut counts, &mut waiting, arrows.ends(number))?;
            }
            None => return Ok(ranks),
        }
    }
    Ok(ranks)
}

/// For each number how many arrows end there.
fn arrow_counts(alloc: Global, arrows: &Arrows) -> Result<Vec<usize>, NoMemory>
    ensures { IfOk result (λ counts. length counts.items ≡ length (ends_of arrows.now)) }
{
    let mut counts = zeros(alloc, arrows.count())?;
    for from in 0..arrows.count() {
        count_up(&mut counts, arrows.ends(from));
    }
    Ok(counts)
}

/// Counts one more at each of these numbers.
fn count_up(counts: &mut [usize], numbers: &[usize])
    requires { AreBelow (length counts.old) numbers.now }
    ensures { length counts.new ≡ length counts.old }
{
    for number in numbers {
        count_one_more(counts, *number);
    }
}

/// Counts one more at this number.
fn count_one_more(counts: &mut [usize], number: usize)
    requires { number < length counts.old }
    ensures { length counts.new ≡ length counts.old }
{
    counts[number] = counts[number].saturating_add(1);
}

/// Counts one less at each of these numbers, and has those wait at which none is left.
fn count_down(
    counts: &mut [usize],
    waiting: &mut Vec<usize>,
    numbers: &[usize],
) -> Result<(), NoMemory>
    requires numbers { AreBelow (length counts.old) numbers.now }
    requires waiting { AreBelow (length counts.old) waiting.old.items }
    ensures wide { OnOk result (length counts.new ≡ length counts.old) }
    ensures waiting { OnOk result (AreBelow (length counts.old) waiting.new.items) }
{
    for number in numbers {
        count_one_less(counts, waiting, *number)?;
    }
    Ok(())
}

/// Counts one less at this number, and has it wait where none is left.
fn count_one_less(
    counts: &mut [usize],
    waiting: &mut Vec<usize>,
    number: usize,
) -> Result<(), NoMemory>
    requires number { number < length counts.old }
    requires waiting { AreBelow (length counts.old) waiting.old.items }
    ensures wide { OnOk result (length counts.new ≡ length counts.old) }
    ensures waiting { OnOk result (AreBelow (length counts.old) waiting.new.items) }
{
    let left = counts[number].saturating_sub(1);
    counts[number] = left;
    if left > 0 {
        return Ok(());
    }
    waiting.push(number)?;
    Ok(())
}

/// A list of `count` zeros.
fn zeros(alloc: Global, count: usize) -> Result<Vec<usize>, NoMemory>
    ensures { IfOk result (λ zeros. zeros.items ≡ replicate count 0) }
{
    let mut zeros = Vec::new(alloc);
    for _ in 0..count {
        zeros.push(0)?;
    }
    Ok(zeros)
}

/// The places of the zeros.
fn places_of_zeros(alloc: Global, numbers: &[usize]) -> Result<Vec<usize>, NoMemory>
    ensures { IfOk result (λ places. AreBelow (length numbers.now) places.items) }
{
    let mut places = Vec::new(alloc);
    for place in 0..numbers.len() {
        add_zero(&mut places, place, numbers[place])?;
    }
    Ok(places)
}

/// Adds the place of a number where it is zero.
fn add_zero(places: &mut Vec<usize>, place: usize, number: usize) -> Result<(), NoMemory>
    ensures { OnOk result ((bound : ℕ) → place < bound → AreBelow bound places.old.items → AreBelow bound places.new.items) }
{
    if number > 0 {
        return Ok(());
    }
    places.push(place)?;
    Ok(())
}
