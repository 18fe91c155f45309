//! The iterations of DO loops around a place of a run, and what scalars denote there.

ghost use Rattle.std.specs.Prelude.{◌≡◌, ◌<◌, ◌≤◌, ◌+◌, ◌∷◌, [], length, map, true, false, MatchOption, IfOk, OnOk, OnErr};
ghost use Rattle.ped_base.specs.Lists as Lists;
ghost use Rattle.ped_store.specs.Cells.{Scalar, Private};
ghost use Rattle.ped_store.specs.Acts as Acts;
ghost use Rattle.ped_store.specs.CellViews.{cell_view, IsCell};
ghost use Rattle.ped_eval.specs.Scopes as Scopes;
ghost use Rattle.ped_eval.specs.ScopeViews.{frame_view, frame_iteration, scope_view, with_turn, outside};
ghost use Rattle.ped_eval.specs.AccessViews.{turn_view};

use crate::accesses::Turn;
use ped_base::{Listed, Name, Names, NoMemory, is_among};
use ped_store::{Cell, Iteration, Iterations, PrivateCopy, is_same_name};
use ped_tree::copy_names;
use std::alloc::Global;
use std::marker::Model;

/// An iteration of a DO loop that a body is in (ANSI X3.9-1978, section 11.10).
#[derive(Drop)]
pub struct Frame {
    /// The statement number of the DO.
    pub statement: u32,
    /// Whether it is a PARALLEL DO.
    pub parallel: bool,
    /// The number of the iteration, from 1.
    pub number: u64,
    /// The value of the variable in it.
    pub value: i128,
    /// The variable of the DO.
    pub variable: Name,
    /// The names of which the iteration has its own copies.
    pub private: Names,
}

/// The iterations around a place, at most six. Contracts see the innermost first.
#[derive(Drop)]
pub struct Scope {
    frames: Vec<Frame>,
}

impl Model for Scope {
    ghost use Rattle.std.specs.Prelude.{◌≤◌, length};
    ghost use Rattle.ped_eval.specs.Scopes as Scopes;
    ghost use Rattle.ped_eval.specs.ScopeViews.{scope_view};

    ghost Value = { Scopes.Scope };

    ghost view = { λ s. scope_view s.frames.items };

    ghost invariant = { λ s. length s.frames.items ≤ 6 };
}

impl Scope {
    /// Outside all loops.
    pub fn new(alloc: Global) -> Scope
        ensures { result ≡ [] }
    {
        Scope {
            frames: Vec::new(alloc),
        }
    }

    /// Goes into an iteration. If memory runs out, the scope is as it was.
    pub fn enter(&mut self, frame: Frame) -> Result<(), NoMemory>
        requires { length self.old < 6 }
        ensures ok { OnOk result (self.new ≡ frame_view frame ∷ self.old) }
        ensures err { OnErr result (self.new ≡ self.old) }
    {
        self.frames.push(frame)?;
        Ok(())
    }

    /// The same iterations.
    ///
    /// # Errors
    ///
    /// Want of memory.
    pub fn copy(&self, alloc: Global) -> Result<Scope, NoMemory>
        ensures { IfOk result (λ scope. scope ≡ self.now) }
    {
        let frames = copy_frames(alloc, &self.frames)?;
        Ok(Scope { frames })
    }

    /// Goes on to another iteration of the innermost loop, in which its variable has this value.
    pub fn turn(&mut self, number: u64, value: i128)
        requires { 0 < length self.old }
        ensures { self.new ≡ with_turn number value self.old }
    {
        turn_last(&mut self.frames, number, value)
    }

    /// Leaves the innermost loop.
    pub fn leave(&mut self)
        requires { 0 < length self.old }
        ensures { self.new ≡ outside self.old }
    {
        self.frames.pop();
    }

    /// The cell that a scalar stands for: the copy of the innermost iteration to which it is private, or else its own
    /// cell.
    pub fn cell(&self, name: &Name) -> Cell
        ensures cell { IsCell result }
        ensures view { cell_view result ≡ Scopes.cell_of self.now name.now }
    {
        cell_in(&self.frames, name)
    }

    /// The same of a scalar that probably is at this place among the names that are private to the innermost iteration,
    /// so that a walk along them looks for none.
    pub fn cell_at(&self, name: &Name, place: usize) -> Cell
        ensures cell { IsCell result }
        ensures view { cell_view result ≡ Scopes.cell_of self.now name.now }
    {
        if is_private_at(&self.frames, name, place) {
            return copy_in(&self.frames, name);
        }
        cell_in(&self.frames, name)
    }

    /// Whether a scalar stands for a private copy; else it stands for its own cell.
    pub(crate) fn has_copy(&self, name: &Name) -> bool
        ensures { result ≡ false → Scopes.cell_of self.now name.now ≡ Scalar name.now }
    {
        has_copy_in(&self.frames, name)
    }

    /// The iterations, that of the outermost DO first.
    pub(crate) fn path(&self, alloc: Global) -> Result<Listed<Turn>, NoMemory>
        ensures { IfOk result (λ path. map turn_view path ≡ Scopes.turns_of self.now) }
    {
        path_of(alloc, &self.frames)
    }

    /// The value of the variable of a DO around the place; none for any other name.
    pub fn index(&self, name: &Name) -> Option<i128>
        ensures { result ≡ Scopes.index_value self.now name.now }
    {
        index_in(&self.frames, name)
    }
}

/// The iterations of frames, in their order.
fn path_of(alloc: Global, frames: &[Frame]) -> Result<Listed<Turn>, NoMemory>
    ensures { IfOk result (λ path. map turn_view path ≡ Scopes.turns_of (scope_view frames.now)) }
{
    let mut path = Listed::new(alloc);
    for frame in frames {
        path.push(Turn {
            statement: frame.statement,
            parallel: frame.parallel,
            number: frame.number,
            value: frame.value,
        })?;
    }
    Ok(path)
}

/// A copy of frames.
fn copy_frames(alloc: Global, frames: &[Frame]) -> Result<Vec<Frame>, NoMemory>
    ensures view { IfOk result (λ copy. scope_view copy.items ≡ scope_view frames.now) }
    ensures length { IfOk result (λ copy. length copy.items ≡ length frames.now) }
{
    let mut copy = Vec::new(alloc);
    for frame in frames {
        let next = copy_frame(alloc, frame)?;
        copy.push(next)?;
    }
    Ok(copy)
}

/// A copy of a frame.
fn copy_frame(alloc: Global, frame: &Frame) -> Result<Frame, NoMemory>
    ensures { IfOk result (λ copy. frame_view copy ≡ frame_view frame.now) }
{
    let private = copy_names(&frame.private, alloc)?;
    Ok(Frame {
        statement: frame.statement,
        parallel: frame.parallel,
        number: frame.number,
        value: frame.value,
        variable: frame.variable,
        private,
    })
}

/// Another iteration of the innermost loop.
fn turn_last(frames: &mut [Frame], number: u64, value: i128)
    requires { 0 < length frames.old }
    ensures turned { scope_view frames.new ≡ with_turn number value (scope_view frames.old) }
    ensures length { length frames.new ≡ length frames.old }
{
    if let Some(frame) = frames.last_mut() {
        frame.number = number;
        frame.value = value;
    }
}

/// The innermost iteration and those around it.
fn split_innermost(frames: &[Frame]) -> Option<(&Frame, &[Frame])>
    ensures is { MatchOption result (frames.now ≡ []) (λ p. scope_view frames.now ≡ frame_view p.0.now ∷ scope_view p.1.now) }
    ensures less { MatchOption result (frames.now ≡ []) (λ p. length p.1.now + 1 ≡ length frames.now) }
{
    match frames.split_last() {
        Some((innermost, outer)) => Some((innermost, outer)),
        None => None,
    }
}

/// The cell that a scalar stands for in these iterations.
fn cell_in(frames: &[Frame], name: &Name) -> Cell
    requires { length frames.now ≤ 6 }
    ensures cell { IsCell result }
    ensures view { cell_view result ≡ Scopes.cell_of (scope_view frames.now) name.now }
{
    let mut left = frames;
    while let Some((innermost, outer)) = split_innermost(left) {
        if is_private(name, innermost.private.as_slice()) {
            return copy_in(left, name);
        }
        left = outer;
    }
    Cell::Scalar(*name)
}

/// Whether a scalar is at this place among the names that are private to the innermost of these iterations.
fn is_private_at(frames: &[Frame], name: &Name, place: usize) -> bool
    ensures some { result ≡ true → 0 < length frames.now }
    ensures view { result ≡ true → Scopes.cell_of (scope_view frames.now) name.now ≡ Private name.now (Acts.iterations_of (Scopes.turns_of (scope_view frames.now))) }
{
    match split_innermost(frames) {
        Some((innermost, _)) => return is_at(innermost.private.as_slice(), name, place),
        None => return false,
    }
}

/// Whether a name is at this place.
fn is_at(names: &[Name], name: &Name, place: usize) -> bool
    ensures { result ≡ true → Lists.is_among name.now names.now ≡ true }
{
    match names.get(place) {
        Some(found) => return *name == *found,
        None => return false,
    }
}

/// Whether a scalar stands for a private copy in these iterations.
fn has_copy_in(frames: &[Frame], name: &Name) -> bool
    ensures { result ≡ false → Scopes.cell_of (scope_view frames.now) name.now ≡ Scalar name.now }
{
    let mut left = frames;
    while let Some((innermost, outer)) = split_innermost(left) {
        if is_private(name, innermost.private.as_slice()) {
            return true;
        }
        left = outer;
    }
    false
}

/// Whether a name is one of these; most DO loops have none.
#[inline(always)]
fn is_private(name: &Name, names: &[Name]) -> bool
    ensures { result ≡ Lists.is_among name.now names.now }
{
    if names.is_empty() {
        return false;
    }
    is_among(name, names)
}

/// The copy of a scalar that belongs to the innermost of these iterations.
fn copy_in(frames: &[Frame], name: &Name) -> Cell
    requires some { 0 < length frames.now }
    requires few { length frames.now ≤ 6 }
    ensures cell { IsCell result }
    ensures view { cell_view result ≡ Private name.now (Acts.iterations_of (Scopes.turns_of (scope_view frames.now))) }
{
    Cell::Private(PrivateCopy {
        name: *name,
        iterations: iterations_of(frames),
    })
}

/// The iterations of these frames.
fn iterations_of(frames: &[Frame]) -> Iterations
    requires { length frames.now ≤ 6 }
    ensures { result ≡ map frame_iteration frames.now }
{
    let mut iterations = Iterations::new();
    for frame in frames {
        iterations.push(Iteration {
            statement: frame.statement,
            number: frame.number,
        });
    }
    iterations
}

/// The value of the variable of a DO in these iterations.
fn index_in(frames: &[Frame], name: &Name) -> Option<i128>
    ensures { result ≡ Scopes.index_value (scope_view frames.now) name.now }
{
    let mut left = frames;
    while let Some((innermost, outer)) = split_innermost(left) {
        if is_same_name(name, &innermost.variable) {
            return Some(innermost.value);
        }
        left = outer;
    }
    None
}
