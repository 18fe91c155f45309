//! Acts put in place of others, where some cells don't count.

ghost use Rattle.std.specs.Prelude.{List, [], ◌∷◌, Bool};
ghost use Rattle.ped_laws.specs.ped_store.specs.Cells.{Cell};
ghost use Rattle.ped_laws.specs.ped_store.specs.Stores.{Store};
ghost use Rattle.ped_laws.specs.ped_store.specs.Acts.{Act};
ghost use Rattle.ped_laws.specs.Acts.Fitting.{Fits};
ghost use Rattle.ped_laws.specs.Acts.Conflicts.{without, ReadNone};
ghost use Rattle.ped_laws.specs.Acts.Pieces.{StandsFor};
ghost use Rattle.ped_laws.specs.Acts.Renaming.{Renamed, own_name};
ghost use Rattle.ped_weaves.specs.Puttings.{Suit, IsPutFor};

/// Acts that read no idle cell stand for such with the same reads and writes of all other cells. For what is around a
/// loop in which a name comes or goes: there the exits of a PARALLEL DO change on copies that nobody wants.
pub fn kept_part()
    ensures { (idle before behind : Cell → Bool) (acts others : List Act) (s : Store) → Fits acts s → Suit idle before behind acts → ReadNone idle acts → Renamed own_name (without idle acts) (without idle others) → StandsFor (record { agreed = before; old = acts; new = others }) behind s }
{}

/// An act stands for one that reads first what it reads, or more, in any order, and then does the same outside idle cells.
/// For the entries of loops: bounds are read in another order, in cells that may be idle, and the last entry of a loop
/// without an iteration leaves its variable with another value.
pub fn act_for_act()
    ensures { (idle before behind : Cell → Bool) (a b : Act) (s : Store) → Fits (a ∷ []) s → Suit idle before behind (a ∷ []) → IsPutFor idle a b → StandsFor (record { agreed = before; old = a ∷ []; new = b ∷ [] }) behind s }
{}
