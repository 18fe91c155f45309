//! Side by side: two lists walked together, touch by touch.

ghost use Rattle.std.specs.Prelude.{◌≡◌, List, []};
ghost use Rattle.ped_eval.specs.ped_store.specs.Cells.{Cell};
ghost use Rattle.ped_eval.specs.ped_store.specs.Stores.{Store};
ghost use Rattle.ped_eval.specs.ped_store.specs.Acts.{Act};
ghost use Rattle.ped_laws.specs.Acts.Fitting.{Fits, store_after, touches_of, of_cells};
ghost use Rattle.ped_laws.specs.Acts.Walks.{Stride, olds, news, in_step, SameSource, SideBySide, walked};

/// Touches from which no touch that meets another takes its content may be left out, put in or changed one by one,
/// where those put in find what they read: the new acts fit their store where the old ones fit theirs, and the stores
/// left hold the same in two cells whose last writes have met. For entries and exits of loops, where one act writes a
/// DO variable and makes private names undefined.
pub fn side_by_side()
    ensures fits { (w : List Stride) (acts others : List Act) (s t : Store) → of_cells (touches_of acts) ≡ of_cells (olds w) → of_cells (touches_of others) ≡ of_cells (news w) → SideBySide [] w s t → Fits acts s → Fits others t }
    ensures leaves { (w : List Stride) (acts others : List Act) (s t : Store) → of_cells (touches_of acts) ≡ of_cells (olds w) → of_cells (touches_of others) ≡ of_cells (news w) → SideBySide [] w s t → (c d : Cell) → SameSource (walked [] w) s t c d → store_after acts s c ≡ store_after others t d }
{}

/// Renaming: where a list fits a store, a list of the same acts in the same order, with cells renamed so that each read
/// takes its content from the same write as before or from an equal one at the start, fits its own store.
pub fn renaming_by_source()
    ensures fits { (acts others : List Act) (s t : Store) → SideBySide [] (in_step (of_cells (touches_of acts)) (of_cells (touches_of others))) s t → Fits acts s → Fits others t }
    ensures leaves { (acts others : List Act) (s t : Store) → SideBySide [] (in_step (of_cells (touches_of acts)) (of_cells (touches_of others))) s t → (c d : Cell) → SameSource (walked [] (in_step (of_cells (touches_of acts)) (of_cells (touches_of others)))) s t c d → store_after acts s c ≡ store_after others t d }
{}
