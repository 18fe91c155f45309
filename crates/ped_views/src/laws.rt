//! What the definitions in `specs/` determine. The function does nothing; its contract is the law.

ghost use Rattle.std.specs.Prelude.{◌≡◌, ◌↔◌, IsTrue};
ghost use Rattle.ped_views.specs.Views.{View};
ghost use Rattle.ped_views.specs.SameViews.{same_view};

/// Views that hold the same numbers are equal, and equal views hold the same numbers.
pub fn same_view_is_equality()
    ensures { (v w : View) → IsTrue (same_view v w) ↔ (v ≡ w) }
{}
