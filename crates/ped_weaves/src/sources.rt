//! Where the accesses of a new list come from.

ghost use Rattle.std.specs.Prelude.{◌≡◌, List, Bool, true};
ghost use Rattle.ped_laws.specs.ped_store.specs.Acts.{Act};
ghost use Rattle.ped_laws.specs.ped_store.specs.Races.{Access, accesses, race, HasNoRace};
ghost use Rattle.ped_laws.specs.Acts.Orders.{StandsBefore};
ghost use Rattle.ped_weaves.specs.Sources.{HaveSources, RaceSomewhere};

/// A list has no race where each of its accesses has a source in a list without one, or conflicts with none of another
/// iteration; and where each two of its accesses that race lead to two of the old ones that do. For every step that
/// rewrites loops: it makes no race.
pub fn comes_free()
    ensures sources { (comes : Access → Access → Bool) (acts others : List Act) → HaveSources (λ b x. comes b x ≡ true) acts others → HasNoRace (accesses acts) → HasNoRace (accesses others) }
    ensures pairs { (acts others : List Act) → ((b c : Access) → StandsBefore b c (accesses others) → race b c ≡ true → RaceSomewhere acts) → HasNoRace (accesses acts) → HasNoRace (accesses others) }
{}
