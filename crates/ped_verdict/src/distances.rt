//! The distance of a dependence in a common loop.

ghost use Rattle.std.specs.Prelude.{◌≡◌, ◌<◌, ◌-ℤ◌, ◌*ℤ◌, pos, length, MatchOption};
ghost use Rattle.ped_views.specs.Whole.{whole_quotient};
ghost use Rattle.ped_views.specs.Vectors as Spec;
ghost use Rattle.ped_verdict.specs.CodeForms.{IsNotStrong, IsStrongBy};

use crate::forms::{Form, form_of};
use ped_siv::strong_distance;
use ped_views::{PairView, Position};

/// The distance in iterations of the common loop at this place, by the first position that is strong SIV in
/// it; none where that isn't whole, and where there is no such position.
pub fn distance(view: &PairView, place: usize) -> Option<i128>
    requires { place < length view.now.loops }
    ensures { result ≡ Spec.distance view.now place }
{
    first_distance(&view.positions, place, view.loops[place].step)
}

/// The distance by the first of these positions that is strong SIV in the loop at this place.
fn first_distance(positions: &[Position], place: usize, step: i64) -> Option<i128>
    requires { ¬ (step ≡ pos 0) }
    ensures { result ≡ Spec.first_distance place step positions.now }
{
    for position in positions {
        if let Some(a) = strong_coefficient(position, place) {
            return distance_by(position, a, step);
        }
    }
    None
}

/// The distance of a strong SIV pair with this coefficient, in a loop of this step.
fn distance_by(position: &Position, a: i64, step: i64) -> Option<i128>
    requires coefficient { ¬ (a ≡ pos 0) }
    requires step { ¬ (step ≡ pos 0) }
    ensures { result ≡ whole_quotient
        (position.now.source.constant -ℤ position.now.sink.constant)
        (a *ℤ step) }
{
    strong_distance(a, position.source.constant, position.sink.constant, step)
}

/// The coefficient of the loop at this place, where the position is usable and strong SIV in it.
pub(crate) fn strong_coefficient(position: &Position, place: usize) -> Option<i64>
    ensures { MatchOption result (IsNotStrong place position.now) (λ a. IsStrongBy a place position.now) }
{
    if !position.usable {
        return None;
    }
    match form_of(position) {
        Form::Strong(one) => {
            if one.place == place {
                return Some(one.at_source);
            }
            None
        }
        Form::Ziv => None,
        Form::WeakZero(_) => None,
        Form::WeakCrossing(_) => None,
        Form::Other => None,
    }
}
