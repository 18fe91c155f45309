//! Agreement: the same acts from stores that agree where the acts need it.

ghost use Rattle.std.specs.Prelude.{◌≡◌, List, true, false, ◌⊎◌};
ghost use Rattle.ped_eval.specs.ped_store.specs.Cells.{Cell};
ghost use Rattle.ped_eval.specs.ped_store.specs.Stores.{Store};
ghost use Rattle.ped_eval.specs.ped_store.specs.Acts.{Act};
ghost use Rattle.ped_laws.specs.Acts.Fitting.{Fits, store_after};
ghost use Rattle.ped_laws.specs.Acts.Sets.{AgreeIn, needs, written};
ghost use Rattle.ped_laws.specs.Acts.Renaming.{Renamed, own_name};

/// Acts that fit a store fit each store that agrees with it where they read before they write, and the stores left
/// agree where the acts write and where they agreed before; a cell that they don't write keeps its content. For all
/// that is around a changed piece of a program.
pub fn agreement()
    ensures fits { (acts : List Act) (s t : Store) → AgreeIn (needs acts) s t → Fits acts s → Fits acts t }
    ensures leaves { (acts : List Act) (s t : Store) (c : Cell) → (written acts c ≡ true) ⊎ (s c ≡ t c) → store_after acts s c ≡ store_after acts t c }
    ensures keeps { (acts : List Act) (s : Store) (c : Cell) → written acts c ≡ false → store_after acts s c ≡ s c }
{}

/// The same holds of other acts with the same reads and writes: at other places, by other steps and references, and
/// with other values that their places give. For the bodies of loops whose entries alone change: skewing, strips,
/// peeling.
pub fn other_places()
    ensures fits { (acts others : List Act) (s t : Store) → Renamed own_name acts others → AgreeIn (needs acts) s t → Fits acts s → Fits others t }
    ensures leaves { (acts others : List Act) (s t : Store) (c : Cell) → Renamed own_name acts others → (written acts c ≡ true) ⊎ (s c ≡ t c) → store_after acts s c ≡ store_after others t c }
{}
