//! Renaming: the same acts on other cells.

ghost use Rattle.std.specs.Prelude.{◌≡◌, List, true, false, ◌⊎◌};
ghost use Rattle.ped_eval.specs.ped_store.specs.Cells.{Cell, same_cell};
ghost use Rattle.ped_eval.specs.ped_store.specs.Stores.{Store};
ghost use Rattle.ped_eval.specs.ped_store.specs.Acts.{Act};
ghost use Rattle.ped_laws.specs.Acts.Fitting.{Fits, store_after};
ghost use Rattle.ped_laws.specs.Acts.Sets.{AgreeIn, needs, written};
ghost use Rattle.ped_laws.specs.Acts.Renaming.{Renamed, touch, IsOneToOne, IsFree, in_place_of};

/// Acts with new names for their cells, no two that they touch the same, fit each store that holds in the new cells
/// what the old ones held where the acts read before they write. They leave in the new cells what they left in the old
/// ones, where they write or the stores were alike, and keep all that is the new cell of none that they write.
pub fn renaming()
    ensures fits { (g : Cell → Cell) (acts others : List Act) (s t : Store) → Renamed g acts others → IsOneToOne g acts → ((c : Cell) → needs acts c ≡ true → s c ≡ t (g c)) → Fits acts s → Fits others t }
    ensures leaves { (g : Cell → Cell) (acts others : List Act) (s t : Store) (c : Cell) → Renamed g acts others → IsFree g acts c → (written acts c ≡ true) ⊎ (s c ≡ t (g c)) → store_after acts s c ≡ store_after others t (g c) }
    ensures keeps { (g : Cell → Cell) (acts others : List Act) (t : Store) (d : Cell) → Renamed g acts others → ((c : Cell) → written acts c ≡ true → g c ≡ d → ⊥) → store_after others t d ≡ t d }
{}

/// All cells one to one. For the copies of private scalars, where a loop becomes parallel or serial, or its iterations
/// get other numbers.
pub fn renaming_everywhere()
    ensures fits { (g : Cell → Cell) (acts others : List Act) (s t : Store) → Renamed g acts others → ((c d : Cell) → g c ≡ g d → c ≡ d) → ((c : Cell) → s c ≡ t (g c)) → Fits acts s → Fits others t }
    ensures leaves { (g : Cell → Cell) (acts others : List Act) (s t : Store) → Renamed g acts others → ((c d : Cell) → g c ≡ g d → c ≡ d) → ((c : Cell) → s c ≡ t (g c)) → (c : Cell) → store_after acts s c ≡ store_after others t (g c) }
{}

/// One cell c that isn't read before it is written gets the name d, which nothing touches: d holds then what the acts
/// write to c, c keeps its content, and the others hold what they held. For privatising and expanding a scalar.
pub fn renaming_one()
    ensures fits { (c d : Cell) (acts others : List Act) (s t : Store) → Renamed (in_place_of c d) acts others → needs acts c ≡ false → touch acts d ≡ false → AgreeIn (needs acts) s t → Fits acts s → Fits others t }
    ensures moves { (c d : Cell) (acts others : List Act) (s t : Store) → Renamed (in_place_of c d) acts others → touch acts d ≡ false → written acts c ≡ true → store_after acts s c ≡ store_after others t d }
    ensures leaves { (c d : Cell) (acts others : List Act) (s t : Store) (x : Cell) → Renamed (in_place_of c d) acts others → touch acts d ≡ false → same_cell c x ≡ false → same_cell d x ≡ false → (written acts x ≡ true) ⊎ (s x ≡ t x) → store_after acts s x ≡ store_after others t x }
    ensures keeps { (c d : Cell) (acts others : List Act) (t : Store) → Renamed (in_place_of c d) acts others → touch acts d ≡ false → store_after others t c ≡ t c }
{}
