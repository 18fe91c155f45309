//! Whether the tests of a view are exact.

ghost use Rattle.std.specs.Prelude.{◌≡◌};
ghost use Rattle.std.specs.List.{list_all};
ghost use Rattle.ped_verdict.specs.Exactness as Spec;
ghost use Rattle.ped_verdict.specs.CodeForms.{form_shown};

use crate::forms::{Form, form_of};
use ped_views::{PairView, Position};

/// Whether each position is usable and ZIV or strong SIV.
pub fn is_exact(view: &PairView) -> bool
    ensures { result ≡ Spec.is_exact view.now }
{
    all_exact(&view.positions)
}

fn all_exact(positions: &[Position]) -> bool
    ensures { result ≡ list_all Spec.is_exact_position positions.now }
{
    positions.iter().all(|position| is_exact_position(position))
}

fn is_exact_position(position: &Position) -> bool
    ensures { result ≡ Spec.is_exact_position position.now }
{
    position.usable && is_exact_form(form_of(position))
}

fn is_exact_form(form: Form) -> bool
    ensures { result ≡ Spec.is_exact_form (form_shown form) }
{
    match form {
        Form::Ziv | Form::Strong(_) => true,
        Form::WeakZero(_) | Form::WeakCrossing(_) | Form::Other => false,
    }
}
