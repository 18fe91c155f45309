//! The DO loops round a reference with their ranges, and what bounds their variables.

ghost use Rattle.std.specs.Prelude.{◌≡◌, ◌≤◌, ◌<◌, ◌++◌, ◌∷◌, [], map, take, length, slice_get, Some, IfOk, OnOk};
ghost use Rattle.ped_tree.specs.Views.{expr_tree, pack_exprs};
ghost use Rattle.ped_refs.specs.Loops.{nest_of, loop_of};
ghost use Rattle.ped_affine.specs.Arguments.{setting_of};
ghost use Rattle.ped_affine.specs.PairViews.{heads_of};
ghost use Rattle.ped_affine.specs.Ranges.{nest_ranges};
ghost use Rattle.ped_evidence.specs.Kept.{level_of, levels_kept, trees_of, extreme};
ghost use Rattle.ped_evidence.specs.Levels as Spec;

use ped_affine::{Setting, range};
use ped_base::NoMemory;
use ped_refs::Loop;
use ped_tree::{Do, Expr, Intrinsic};
use ped_views::LoopRange;
use std::alloc::Global;

/// A DO round a reference.
#[derive(Clone, Copy)]
pub struct Level<'a> {
    /// The DO loops round it, the outermost first.
    pub around: &'a [Loop<'a>],
    /// The DO.
    pub statement: &'a Do,
    /// Its range.
    pub range: &'a LoopRange,
}

/// The ranges of the loops of a nest, the outermost first. There are at most six.
pub fn ranges(alloc: Global, setting: &Setting, nest: &[Loop]) -> Result<Vec<LoopRange>, NoMemory>
    requires { length nest.now ≤ 6 }
    ensures ranges { IfOk result (λ found. found.items ≡ nest_ranges (setting_of setting.now) (heads_of (nest_of nest.now))) }
    ensures as_many { IfOk result (λ found. length found.items ≡ length nest.now) }
{
    let mut found = Vec::with_capacity(alloc, nest.len())?;
    for i in 0..nest.len() {
        found.push(range(setting, nest, i + 1))?;
    }
    Ok(found)
}

/// The loops of a nest with these ranges, the outermost first.
pub fn levels<'a>(
    alloc: Global,
    nest: &'a [Loop<'a>],
    ranges: &'a [LoopRange],
) -> Result<Vec<Level<'a>>, NoMemory>
    requires { length ranges.now ≡ length nest.now }
    ensures { IfOk result (λ found. levels_kept found.items ≡ Spec.levels_inside [] (nest_of nest.now) ranges.now) }
{
    let mut found = Vec::with_capacity(alloc, nest.len())?;
    for i in 0..nest.len() {
        let level = level_at(nest, ranges, i);
        found.push(level)?;
    }
    Ok(found)
}

/// The loop at this place of a nest, 0 for the outermost.
fn level_at<'a>(nest: &'a [Loop<'a>], ranges: &'a [LoopRange], place: usize) -> Level<'a>
    requires as_many { length ranges.now ≡ length nest.now }
    requires within { place < length nest.now }
    ensures { slice_get (Spec.levels_inside [] (nest_of nest.now) ranges.now) place ≡ Some (level_of result) }
{
    let around = front(nest, place);
    let l = loop_there(nest, place);
    let range = range_there(ranges, place);
    Level {
        around,
        statement: l.statement,
        range,
    }
}

/// The loops round the one at this place.
fn front<'a>(nest: &'a [Loop<'a>], place: usize) -> &'a [Loop<'a>]
    requires { place < length nest.now }
    ensures { nest_of result.now ≡ take place (nest_of nest.now) }
{
    &nest[..place]
}

fn loop_there<'a>(nest: &'a [Loop<'a>], place: usize) -> &'a Loop<'a>
    requires { place < length nest.now }
    ensures { slice_get (nest_of nest.now) place ≡ Some (loop_of result.now) }
{
    &nest[place]
}

fn range_there(ranges: &[LoopRange], place: usize) -> &LoopRange
    requires { place < length ranges.now }
    ensures { slice_get ranges.now place ≡ Some result.now }
{
    &ranges[place]
}

impl<'a> Level<'a> {
    /// Whether the loop counts down.
    pub fn falls(&self) -> bool
        ensures { result ≡ Spec.falls (level_of self.now) }
    {
        let range = self.range;
        range.step < 0
    }

    /// What the variable is at least, each of them.
    pub fn lower_bounds(&self, alloc: Global) -> Result<Vec<&'a Expr>, NoMemory>
        ensures { IfOk result (λ found. trees_of found.items ≡ Spec.lower_bounds (level_of self.now)) }
    {
        if self.falls() {
            operands(alloc, true, &self.statement.last)
        } else {
            operands(alloc, true, &self.statement.first)
        }
    }

    /// What the variable is at most, each of them.
    pub fn upper_bounds(&self, alloc: Global) -> Result<Vec<&'a Expr>, NoMemory>
        ensures { IfOk result (λ found. trees_of found.items ≡ Spec.upper_bounds (level_of self.now)) }
    {
        if self.falls() {
            operands(alloc, false, &self.statement.first)
        } else {
            operands(alloc, false, &self.statement.last)
        }
    }
}

/// The operands of a bound: of MAX, or of MIN.
fn operands<'a>(alloc: Global, greatest: bool, e: &'a Expr) -> Result<Vec<&'a Expr>, NoMemory>
    ensures { IfOk result (λ found. trees_of found.items ≡ Spec.operands (extreme greatest) (expr_tree e.now)) }
{
    let mut found = Vec::new(alloc);
    add_operands(&mut found, greatest, e)?;
    Ok(found)
}

/// Adds the operands of a bound or of an operand.
#[cycle(operands)]
fn add_operands<'a>(found: &mut Vec<&'a Expr>, greatest: bool, e: &'a Expr) -> Result<(), NoMemory>
    ensures { OnOk result (trees_of found.new.items ≡ trees_of found.old.items ++ Spec.operands (extreme greatest) (expr_tree e.now)) }
{
    match e {
        Expr::Call(function, arguments) => {
            if is_extreme(greatest, *function) {
                return add_operands_of_all(found, greatest, arguments);
            }
            add_one(found, e)
        }
        Expr::Int(_)
        | Expr::Var(_)
        | Expr::Element(_, _)
        | Expr::Neg(_)
        | Expr::Add(_, _)
        | Expr::Sub(_, _)
        | Expr::Mul(_, _)
        | Expr::Div(_, _)
        | Expr::Pow(_, _) => add_one(found, e),
    }
}

/// Adds the operands of arguments.
#[cycle(operands)]
fn add_operands_of_all<'a>(
    found: &mut Vec<&'a Expr>,
    greatest: bool,
    arguments: &'a [Expr],
) -> Result<(), NoMemory>
    ensures { OnOk result (trees_of found.new.items ≡ trees_of found.old.items ++ Spec.operands_of_all (extreme greatest) (pack_exprs (map expr_tree arguments.now))) }
{
    for argument in arguments {
        add_operands(found, greatest, argument)?;
    }
    Ok(())
}

fn add_one<'a>(found: &mut Vec<&'a Expr>, e: &'a Expr) -> Result<(), NoMemory>
    ensures { OnOk result (trees_of found.new.items ≡ trees_of found.old.items ++ expr_tree e.now ∷ []) }
{
    found.push(e)?;
    Ok(())
}

/// Whether a function is MAX, or MIN.
fn is_extreme(greatest: bool, function: Intrinsic) -> bool
    ensures { result ≡ extreme greatest function }
{
    match function {
        Intrinsic::Max => greatest,
        Intrinsic::Min => !greatest,
        Intrinsic::Mod | Intrinsic::Abs => false,
    }
}
