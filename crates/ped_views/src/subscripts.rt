//! Views of pairs of references.

ghost use Rattle.std.specs.Prelude.{◌≡◌, ◌↔◌, ◌≤◌, length, IsTrue, IfOk};

use crate::ranges::LoopRange;
use arrayvec::ArrayVec;
use std::marker::Model;

/// The coefficients of at most six loops, which take no memory of their own.
pub type Coefficients = ArrayVec<i64, 6>;

/// These coefficients.
pub fn coefficients(numbers: &[i64]) -> Coefficients
    requires { length numbers.now ≤ 6 }
    ensures { result.items ≡ numbers.now }
{
    let mut kept = ArrayVec::new();
    for number in numbers {
        kept.push(*number);
    }
    kept
}

/// One subscript as an affine form: a coefficient within 2^31 of zero for each loop, and a constant
/// within 2^62 of zero.
#[derive(Drop)]
pub struct AffRow {
    /// The coefficients of the common loops, the outermost first.
    pub common: Coefficients,
    /// The coefficients of the further loops of this side.
    pub inner: Coefficients,
    /// The constant.
    pub constant: i64,
}

impl Model for AffRow {
    ghost use Rattle.ped_views.specs.Views.{Row};

    ghost Value = { Row };

    ghost use Rattle.ped_views.specs.Limits.{IsRow};

    ghost view = { λ r. record { common = r.common.items; inner = r.inner.items; constant = r.constant } };

    ghost invariant = { λ r. IsRow (record { common = r.common.items; inner = r.inner.items; constant = r.constant }) };
}

/// The two subscripts at one position of a pair of references. The dependence tests look at it only
/// where both are affine, which `usable` says.
#[derive(Drop)]
pub struct Position {
    /// Whether both subscripts are affine forms.
    pub usable: bool,
    /// The subscript of the source.
    pub source: AffRow,
    /// The subscript of the sink.
    pub sink: AffRow,
}

impl Model for Position {
    ghost use Rattle.ped_views.specs.Views.{SubscriptPair};

    ghost Value = { SubscriptPair };

    ghost use Rattle.ped_views.specs.Limits.{IsPosition};

    ghost view = { λ p. record { usable = p.usable; source = p.source; sink = p.sink } };

    ghost invariant = { λ p. IsPosition (record { usable = p.usable; source = p.source; sink = p.sink }) };
}

/// What the dependence tests look at of an ordered pair of references: ranges and affine forms, and no
/// names. At most six loops enclose each side.
#[derive(Drop)]
pub struct PairView {
    /// The ranges of the common loops, the outermost first.
    pub loops: Vec<LoopRange>,
    /// The ranges of the further loops of the source.
    pub source_inner: Vec<LoopRange>,
    /// The ranges of the further loops of the sink.
    pub sink_inner: Vec<LoopRange>,
    /// The subscripts, position by position.
    pub positions: Vec<Position>,
}

impl Model for PairView {
    ghost use Rattle.ped_views.specs.Views.{View};

    ghost Value = { View };

    ghost use Rattle.ped_views.specs.Limits.{IsView};

    ghost view = { λ v. record { loops = v.loops.items; source_inner = v.source_inner.items; sink_inner = v.sink_inner.items; positions = v.positions.items } };

    ghost invariant = { λ v. IsView (record { loops = v.loops.items; source_inner = v.source_inner.items; sink_inner = v.sink_inner.items; positions = v.positions.items }) };
}

impl PairView {
    ghost use Rattle.ped_views.specs.SameViews.{same_view};

    /// Whether both views hold the same numbers.
    pub fn same(&self, other: &PairView) -> bool
        ensures same { result ≡ same_view self.now other.now }
        ensures equal { IsTrue result ↔ (self.now ≡ other.now) }
    {
        self.is_equal(other)
    }

    fn is_equal(&self, other: &PairView) -> bool
        ensures { IsTrue result ↔ (self.now ≡ other.now) }
    {
        same_ranges(&self.loops, &other.loops)
            && same_ranges(&self.source_inner, &other.source_inner)
            && same_ranges(&self.sink_inner, &other.sink_inner)
            && same_positions(&self.positions, &other.positions)
    }
}

fn same_ranges(left: &[LoopRange], right: &[LoopRange]) -> bool
    ensures { IsTrue result ↔ (left.now ≡ right.now) }
{
    left == right
}

fn same_numbers(left: &[i64], right: &[i64]) -> bool
    ensures { IsTrue result ↔ (left.now ≡ right.now) }
{
    left == right
}

fn same_row(left: &AffRow, right: &AffRow) -> bool
    ensures { IsTrue result ↔ (left.now ≡ right.now) }
{
    same_numbers(&left.common, &right.common)
        && same_numbers(&left.inner, &right.inner)
        && left.constant == right.constant
}

fn same_position(left: &Position, right: &Position) -> bool
    ensures { IsTrue result ↔ (left.now ≡ right.now) }
{
    left.usable == right.usable
        && same_row(&left.source, &right.source)
        && same_row(&left.sink, &right.sink)
}

fn same_positions(left: &[Position], right: &[Position]) -> bool
    ensures { IsTrue result ↔ (left.now ≡ right.now) }
{
    if left.len() != right.len() {
        return false;
    }
    for (i, position) in left.iter().enumerate() {
        if !same_position(position, &right[i]) {
            return false;
        }
    }
    true
}
