//! The positions of a pair: two subscripts as rows of coefficients for the loops on both sides (Allen and Kennedy,
//! section 3.1).

ghost use Rattle.std.specs.Prelude.{◌≡◌, ◌+◌, ◌≤◌, pos, length, replicate, option_map, IfOk};
ghost use Rattle.std.specs.Option.{ForSome};
ghost use Rattle.std.specs.Ordering.{int_eq};
ghost use Rattle.std.specs.Cmp.Lexicographic.{pointwise};
ghost use Rattle.ped_views.specs.Limits.{FitsLoops};
ghost use Rattle.ped_tree.specs.Views.{expr_tree};
ghost use Rattle.ped_affine.specs.KeptForms.{plain_form};
ghost use Rattle.ped_affine.specs.PairViews as Spec;
ghost use Rattle.ped_affine.specs.Arguments.{setting_of, site};
ghost use Rattle.ped_affine.specs.Pairs.{depths_kept, IsPair, Covers};

use crate::forms::{Form, Terms};
use crate::others::other_variables;
use crate::settings::{Place, Setting};
use crate::subscripts::affine;
use ped_base::NoMemory;
use ped_tree::Expr;
use ped_views::{AffRow, Coefficients, Position, coefficients};
use std::alloc::Global;

/// How many loops a pair has.
#[derive(Clone, Copy)]
pub(crate) struct Depths {
    /// How many are common.
    pub common: usize,
    /// How many further ones the source has.
    pub source: usize,
    /// How many further ones the sink has.
    pub sink: usize,
}

/// An ordered pair of places.
#[derive(Clone, Copy)]
pub(crate) struct Pair<'a, 'b, 'c> {
    /// What ranges and forms depend on.
    pub setting: Setting<'a>,
    /// The place of the source.
    pub source: Place<'b>,
    /// The place of the sink.
    pub sink: Place<'c>,
    /// How many loops they have.
    pub depths: Depths,
}

/// The two subscripts at a position of a pair.
pub(crate) fn position(alloc: Global, pair: &Pair, e: &Expr, g: &Expr) -> Result<Position, NoMemory>
    requires { IsPair pair.now }
    ensures value { IfOk result (λ p. p ≡ Spec.position_of (setting_of pair.now.setting) (site pair.now.source) (site pair.now.sink) (expr_tree e.now) (expr_tree g.now)) }
    ensures fits { IfOk result (FitsLoops pair.now.depths.common pair.now.depths.source pair.now.depths.sink) }
{
    let others = other_variables(alloc, &pair.setting, &pair.source, &pair.sink, e, g)?;
    let source = Terms {
        constants: pair.setting.constants,
        nest: pair.source.nest,
        others: &others,
    };
    let sink = Terms {
        constants: pair.setting.constants,
        nest: pair.sink.nest,
        others: &others,
    };
    let a = affine(alloc, &source, e)?;
    let b = affine(alloc, &sink, g)?;
    Ok(subscript_pair(&pair.depths, a, b))
}

/// Two forms as the subscripts at a position, which is usable where both are there and have the same coefficients of
/// the other variables.
fn subscript_pair(depths: &Depths, a: Option<Form>, b: Option<Form>) -> Position
    requires source { depths.now.common + depths.now.source ≤ 6 }
    requires sink { depths.now.common + depths.now.sink ≤ 6 }
    requires first { ForSome a (Covers (depths.now.common + depths.now.source)) }
    requires second { ForSome b (Covers (depths.now.common + depths.now.sink)) }
    ensures value { result ≡ Spec.subscript_pair (depths_kept depths.now) (option_map plain_form a) (option_map plain_form b) }
    ensures fits { FitsLoops depths.now.common depths.now.source depths.now.sink result }
{
    match (a, b) {
        (Some(a), Some(b)) => {
            if have_same_others(depths, &a, &b) {
                usable(depths, &a, &b)
            } else {
                unusable(depths)
            }
        }
        _ => unusable(depths),
    }
}

/// Whether two forms have the same coefficients of the other variables.
fn have_same_others(depths: &Depths, a: &Form, b: &Form) -> bool
    requires first { Covers (depths.now.common + depths.now.source) a.now }
    requires second { Covers (depths.now.common + depths.now.sink) b.now }
    ensures { result ≡ pointwise int_eq
        (Spec.other_coefficients depths.now.common depths.now.source (plain_form a.now))
        (Spec.other_coefficients depths.now.common depths.now.sink (plain_form b.now)) }
{
    same(
        &a.coefficients[depths.common + depths.source..],
        &b.coefficients[depths.common + depths.sink..],
    )
}

/// Whether the numbers are the same.
fn same(left: &[i64], right: &[i64]) -> bool
    ensures { result ≡ pointwise int_eq left.now right.now }
{
    left == right
}

/// A position that the tests look at.
fn usable(depths: &Depths, a: &Form, b: &Form) -> Position
    requires source { depths.now.common + depths.now.source ≤ 6 }
    requires sink { depths.now.common + depths.now.sink ≤ 6 }
    requires first { Covers (depths.now.common + depths.now.source) a.now }
    requires second { Covers (depths.now.common + depths.now.sink) b.now }
    ensures value { result ≡ Spec.usable_pair (depths_kept depths.now) (plain_form a.now) (plain_form b.now) }
    ensures fits { FitsLoops depths.now.common depths.now.source depths.now.sink result }
{
    Position {
        usable: true,
        source: row(depths.common, depths.source, a),
        sink: row(depths.common, depths.sink, b),
    }
}

/// A position that the tests don't look at.
fn unusable(depths: &Depths) -> Position
    requires source { depths.now.common + depths.now.source ≤ 6 }
    requires sink { depths.now.common + depths.now.sink ≤ 6 }
    ensures value { result ≡ Spec.unusable (depths_kept depths.now) }
    ensures fits { FitsLoops depths.now.common depths.now.source depths.now.sink result }
{
    Position {
        usable: false,
        source: zero_row(depths.common, depths.source),
        sink: zero_row(depths.common, depths.sink),
    }
}

/// A form by its coefficients of the common loops and of this many further ones.
fn row(common: usize, further: usize, f: &Form) -> AffRow
    requires covers { Covers (common + further) f.now }
    requires few { common + further ≤ 6 }
    ensures value { result ≡ Spec.row_of common further (plain_form f.now) }
    ensures common { length result.common ≡ common }
    ensures further { length result.inner ≡ further }
{
    AffRow {
        common: coefficients(&f.coefficients[..common]),
        inner: coefficients(&f.coefficients[common..common + further]),
        constant: f.constant,
    }
}

/// A row of zeros.
fn zero_row(common: usize, further: usize) -> AffRow
    requires { common + further ≤ 6 }
    ensures value { result ≡ Spec.zero_row common further }
    ensures common { length result.common ≡ common }
    ensures further { length result.inner ≡ further }
{
    AffRow {
        common: zeros(common),
        inner: zeros(further),
        constant: 0,
    }
}

/// This many zeros.
fn zeros(count: usize) -> Coefficients
    requires { count ≤ 6 }
    ensures { result.items ≡ replicate count (pos 0) }
{
    coefficients(&[0; 6][..count])
}
