//! The strong SIV test: subscripts in one common index, with one coefficient on both sides.

ghost use Rattle.std.specs.Prelude.{◌≡◌, ◌<◌, ◌<ℤ◌, ◌-ℤ◌, ◌*ℤ◌, ◌^◌, ◌↔◌, [], ◌∷◌, All, length, pos, neg_ℤ, IsTrue, IfSome, MatchOption};
ghost use Rattle.ped_views.specs.Whole.{Divides, whole_quotient};
ghost use Rattle.ped_views.specs.Excluded.{NeverMeetTogether};
ghost use Rattle.ped_siv.specs.Fits.{AreApart, FitsSpan, FitsRange};

use ped_views::{Direction, LoopRange, StrongRow, difference, divides, exact_quotient, product};

/// Whether the subscripts of these rows together exclude a direction of their loop: positions that are strong SIV in
/// one loop are coupled by its index (Allen and Kennedy, sections 3.1 and 3.3.2). There is at least one row, and no `a`
/// is 0.
///
/// The subscripts of a row are equal exactly where `j - i = (c1 - c2) / a`, one distance for all iterations. So the
/// direction is excluded exactly where this isn't whole or isn't the same for all rows, is longer than the range, points
/// elsewhere, or isn't a whole number of steps of a steady loop. No distance fits an empty range. Otherwise the test can't
/// determine which values of its range the index takes: where a loop that isn't steady starts, and whether it runs at
/// all.
pub fn group_excludes(rows: &[StrongRow], range: &LoopRange, d: Direction) -> bool
    requires some { 0 < length rows.now }
    requires coefficients { All (λ s. ¬ (s.a ≡ pos 0)) rows.now }
    ensures { IsTrue result ↔ NeverMeetTogether rows.now range.now d }
{
    match distance_of(&rows[0]) {
        None => true,
        Some(distance) => !(are_apart(rows, distance) && fits_range(distance, range, d)),
    }
}

/// Whether the subscripts `a * i + c1` at the source and `b * j + c2` at the sink, where a = b, exclude a
/// direction of the loop: a group of one row. `a` isn't 0.
pub fn strong_excludes(a: i64, b: i64, c1: i64, c2: i64, range: &LoopRange, d: Direction) -> bool
    requires coefficient { ¬ (a ≡ pos 0) }
    requires form { a ≡ b }
    ensures { IsTrue result ↔ NeverMeetTogether
        (record { a = a; c1 = c1; c2 = c2 } ∷ [])
        range.now
        d }
{
    group_excludes(&[StrongRow { a, c1, c2 }], range, d)
}

/// Whether the subscripts of every row are equal at this distance.
fn are_apart(rows: &[StrongRow], distance: i128) -> bool
    requires { All (λ s. ¬ (s.a ≡ pos 0)) rows.now }
    ensures { IsTrue result ↔ AreApart rows.now distance }
{
    for row in rows {
        if !is_apart(row, distance) {
            return false;
        }
    }
    true
}

/// Whether the subscripts of a row are equal at this distance.
fn is_apart(row: &StrongRow, distance: i128) -> bool
    requires { ¬ (row.now.a ≡ pos 0) }
    ensures { IsTrue result ↔ (row.now.a *ℤ distance ≡ row.now.c1 -ℤ row.now.c2) }
{
    match distance_of(row) {
        None => false,
        Some(own) => own == distance,
    }
}

/// The distance of the index values that make the subscripts of a row equal: none exactly where it isn't whole.
fn distance_of(row: &StrongRow) -> Option<i128>
    requires { ¬ (row.now.a ≡ pos 0) }
    ensures divides { MatchOption
        result
        (¬ (Divides row.now.a (row.now.c1 -ℤ row.now.c2)))
        (λ k. row.now.a *ℤ k ≡ row.now.c1 -ℤ row.now.c2) }
    ensures small { IfSome result (λ k. neg_ℤ (pos (2 ^ 127)) <ℤ k) }
{
    exact_quotient(difference(row.c1, row.c2), i128::from(row.a))
}

/// The distance of a strong SIV pair in iterations of a loop with this step, `(c1 - c2) / (a * step)`:
/// none exactly where that isn't whole (Allen and Kennedy, section 3.3). Neither `a` nor `step` is 0.
/// It says how far apart the iterations are that meet, and not whether there are any.
pub fn strong_distance(a: i64, c1: i64, c2: i64, step: i64) -> Option<i128>
    requires coefficient { ¬ (a ≡ pos 0) }
    requires step { ¬ (step ≡ pos 0) }
    ensures { result ≡ whole_quotient (c1 -ℤ c2) (a *ℤ step) }
{
    exact_quotient(difference(c1, c2), product(a, step))
}

/// Whether values of the range that are in the direction of its loop may lie at this distance.
fn fits_range(distance: i128, range: &LoopRange, d: Direction) -> bool
    requires { neg_ℤ (pos (2 ^ 127)) <ℤ distance }
    ensures { IsTrue result ↔ FitsRange range.now d distance }
{
    let span = difference(range.hi, range.lo);
    fits_span(distance, span, d.by_value(range.step)) && in_step(distance, range.step, range.steady)
}

/// Whether two values at this distance are so ordered in a range that ends this far above its start.
fn fits_span(distance: i128, span: i128, d: Direction) -> bool
    requires { neg_ℤ (pos (2 ^ 127)) <ℤ distance }
    ensures { IsTrue result ↔ FitsSpan d distance span }
{
    match d {
        Direction::Before => 0 < distance && distance <= span,
        Direction::Same => distance == 0 && 0 <= span,
        Direction::After => distance < 0 && -distance <= span,
    }
}

/// Whether values of the loop may lie at this distance.
fn in_step(distance: i128, step: i64, steady: bool) -> bool
    requires { neg_ℤ (pos (2 ^ 127)) <ℤ distance }
    ensures { IsTrue result ↔ (IsTrue steady → Divides step distance) }
{
    !steady || divides(i128::from(step), distance)
}
