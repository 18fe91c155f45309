//! What arrows between numbers lead to.

ghost use Rattle.std.specs.Prelude.{◌≡◌, ◌↔◌, ◌<◌, ◌++◌, [], ◌∷◌, ℕ, false, IfOk, OnOk, OnErr, length, get_or, slice_set, replicate};
ghost use Rattle.ped_links.specs.Reaching.{ends_in, AreBelow, EndBelow, AreAdded};

use ped_base::NoMemory;
use std::alloc::Global;

/// Arrows between numbers below a bound: for each number where the arrows lead that begin there.
#[derive(Drop)]
pub struct Arrows {
    ends: Vec<Vec<usize>>,
    ghost within: { EndBelow (length (ends_in ends.items)) (ends_in ends.items) },
}

impl Arrows {
    ghost use Rattle.ped_links.specs.ArrowViews.{ends_of};
    ghost use Rattle.ped_links.specs.Reaching.{IsReached, IsMarked};

    /// No arrows, between numbers below `count`.
    pub fn new(alloc: Global, count: usize) -> Result<Arrows, NoMemory>
        ensures { IfOk result (λ arrows. ends_of arrows ≡ replicate count []) }
    {
        let ends = no_ends(alloc, count)?;
        Ok(Arrows { ends })
    }

    /// How many numbers are below the bound.
    pub fn count(&self) -> usize
        ensures { result ≡ length (ends_of self.now) }
    {
        self.ends.len()
    }

    /// Where arrows lead from a number.
    pub fn ends(&self, from: usize) -> &[usize]
        requires { from < length (ends_of self.now) }
        ensures ends { result.now ≡ get_or (ends_of self.now) from [] }
        ensures below { AreBelow (length (ends_of self.now)) result.now }
    {
        &self.ends[from]
    }

    /// Adds an arrow.
    pub fn add(&mut self, from: usize, to: usize) -> Result<(), NoMemory>
        requires begins { from < length (ends_of self.old) }
        requires ends { to < length (ends_of self.old) }
        ensures ok { OnOk result (ends_of self.new ≡ slice_set (ends_of self.old) from (get_or (ends_of self.old) from [] ++ to ∷ [])) }
        ensures err { OnErr result (ends_of self.new ≡ ends_of self.old) }
    {
        add_end(&mut self.ends, from, to)?;
        Ok(())
    }

    /// Which numbers arrows lead to from these, themselves among them. Each number is looked at once.
    pub fn reached(&self, alloc: Global, seeds: &[usize]) -> Result<Vec<bool>, NoMemory>
        requires { AreBelow (length (ends_of self.now)) seeds.now }
        ensures wide { IfOk result (λ marks. length marks.items ≡ length (ends_of self.now)) }
        ensures marked { IfOk result (λ marks. (j : ℕ) → IsMarked marks.items j ↔ IsReached (ends_of self.now) seeds.now j) }
    {
        let mut marks = falses(alloc, self.ends.len())?;
        let mut waiting = Vec::new(alloc);
        add_all(&mut marks, &mut waiting, seeds)?;
        while let Some(number) = waiting.pop() {
            add_all(&mut marks, &mut waiting, self.ends(number))?;
        }
        Ok(marks)
    }
}

/// For each number below a bound no end.
fn no_ends(alloc: Global, count: usize) -> Result<Vec<Vec<usize>>, NoMemory>
    ensures { IfOk result (λ ends. ends_in ends.items ≡ replicate count []) }
{
    let mut ends = Vec::new(alloc);
    for _ in 0..count {
        ends.push(Vec::new(alloc))?;
    }
    Ok(ends)
}

/// Adds an end to those of a number.
fn add_end(ends: &mut [Vec<usize>], from: usize, to: usize) -> Result<(), NoMemory>
    requires { from < length ends.old }
    ensures ok { OnOk result (ends_in ends.new ≡ slice_set (ends_in ends.old) from (get_or (ends_in ends.old) from [] ++ to ∷ [])) }
    ensures err { OnErr result (ends_in ends.new ≡ ends_in ends.old) }
{
    ends[from].push(to)?;
    Ok(())
}

/// A list of `false` that is this long.
fn falses(alloc: Global, count: usize) -> Result<Vec<bool>, NoMemory>
    ensures { IfOk result (λ falses. falses.items ≡ replicate count false) }
{
    let mut falses = Vec::new(alloc);
    for _ in 0..count {
        falses.push(false)?;
    }
    Ok(falses)
}

/// Marks numbers, and has those wait that were not marked.
fn add_all(marks: &mut [bool], waiting: &mut Vec<usize>, numbers: &[usize]) -> Result<(), NoMemory>
    requires { AreBelow (length marks.old) numbers.now }
    ensures { OnOk result (AreAdded numbers.now marks.old waiting.old.items marks.new waiting.new.items) }
{
    for number in numbers {
        add(marks, waiting, *number)?;
    }
    Ok(())
}

/// Marks a number, and has it wait where it was not marked.
fn add(marks: &mut [bool], waiting: &mut Vec<usize>, number: usize) -> Result<(), NoMemory>
    requires { number < length marks.old }
    ensures { OnOk result (AreAdded (number ∷ []) marks.old waiting.old.items marks.new waiting.new.items) }
{
    if marks[number] {
        return Ok(());
    }
    marks[number] = true;
    waiting.push(number)?;
    Ok(())
}
