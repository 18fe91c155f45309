//! Exclusions and vectors of views. Each function here does nothing; its contract is the law.

ghost use Rattle.std.specs.Prelude.{List};
ghost use Rattle.ped_session.specs.ped_rules.specs.ped_views.specs.declared.directions.Direction.{Direction};
ghost use Rattle.ped_session.specs.ped_rules.specs.ped_views.specs.Views.{SubscriptPair, View};
ghost use Rattle.ped_session.specs.ped_rules.specs.ped_views.specs.Excluded.{Excludes};
ghost use Rattle.ped_session.specs.ped_rules.specs.ped_views.specs.Vectors.{AreVectors};
ghost use Rattle.ped_answer.specs.Existence.Deciding.{Decided};

/// A subscript pair excludes a direction vector, or it doesn't, whatever the view is: the sentences speak of index
/// values without end, and yet ranges and greatest common divisors settle each of them.
pub fn exclusions_are_decided()
    ensures { (v : View) (p : SubscriptPair) (vector : List Direction) → Decided (Excludes v p vector) }
{}

/// Each view has its vectors: those that no position excludes, chosen one after the other. That it has no second list
/// of them is next to the definitions of dependences.
pub fn vectors_exist()
    ensures { (v : View) → (vectors : List (List Direction)) × AreVectors v vectors }
{}
