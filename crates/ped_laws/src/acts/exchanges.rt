//! Pieces: a list of acts in which some pieces are replaced by others.

ghost use Rattle.std.specs.Prelude.{◌≡◌, List, ◌++◌, Bool, true, ◌⊎◌};
ghost use Rattle.ped_eval.specs.ped_store.specs.Cells.{Cell};
ghost use Rattle.ped_eval.specs.ped_store.specs.Stores.{Store};
ghost use Rattle.ped_eval.specs.ped_store.specs.Acts.{Act};
ghost use Rattle.ped_laws.specs.Acts.Fitting.{Fits, store_after};
ghost use Rattle.ped_laws.specs.Acts.Sets.{AgreeIn, needs, written, wants};
ghost use Rattle.ped_laws.specs.Acts.Renaming.{Renamed, own_name};
ghost use Rattle.ped_laws.specs.Acts.Changes.{acts_behind};
ghost use Rattle.ped_laws.specs.Acts.Exchanges.{Exchange, IsAllowed};
ghost use Rattle.ped_laws.specs.Acts.Pieces.{Piece, old_acts, new_acts, agreed_before, StandsFor, AllStand, Part, old_parts, new_parts, PartsStand};

/// Acts and then others fit where the first fit and the others fit what those leave. For putting lists together and
/// taking them apart.
pub fn one_after_another()
    ensures fits { (acts others : List Act) (s : Store) → Fits acts s → Fits others (store_after acts s) → Fits (acts ++ others) s }
    ensures first { (acts others : List Act) (s : Store) → Fits (acts ++ others) s → Fits acts s }
    ensures rest { (acts others : List Act) (s : Store) → Fits (acts ++ others) s → Fits others (store_after acts s) }
    ensures leaves { (acts others : List Act) (s : Store) → store_after (acts ++ others) s ≡ store_after others (store_after acts s) }
{}

/// Where each new piece may stand for the old one from the store that the old acts have left, and from each store that
/// agrees with it on the piece's set, the new list fits and the stores left agree on the last set. For the executions
/// of a changed loop among all that a program does.
pub fn pieces()
    ensures fits { (ps : List Piece) (last : Cell → Bool) (s t : Store) → AllStand ps last s → AgreeIn (agreed_before ps last) s t → Fits (new_acts ps) t }
    ensures leaves { (ps : List Piece) (last : Cell → Bool) (s t : Store) → AllStand ps last s → AgreeIn (agreed_before ps last) s t → AgreeIn last (store_after (old_acts ps) s) (store_after (new_acts ps) t) }
{}

/// A piece with the same reads and writes may stand for a piece where the sets have what it needs before it, and after
/// it no more than before and what it writes. For the pieces that don't change: they make stores agree again.
pub fn equal_piece()
    ensures { (acts others : List Act) (before behind : Cell → Bool) (s : Store) → Renamed own_name acts others → Fits acts s → ((c : Cell) → needs acts c ≡ true → before c ≡ true) → ((c : Cell) → behind c ≡ true → (before c ≡ true) ⊎ (written acts c ≡ true)) → StandsFor (record { agreed = before; old = acts; new = others }) behind s }
{}

/// A piece that stands for one which stands for another stands for that one. For steps that are done in two.
pub fn in_two_steps()
    ensures { (acts middle others : List Act) (before behind : Cell → Bool) (s : Store) → StandsFor (record { agreed = before; old = acts; new = middle }) behind s → StandsFor (record { agreed = before; old = middle; new = others }) behind s → StandsFor (record { agreed = before; old = acts; new = others }) behind s }
{}

/// Where each changed part may stand for the old one from stores that agree on what the old acts want from there on,
/// the new list fits where the old one does, and the stores agree on what is shown at the end. For scalars that aren't
/// live after the loop that changes.
pub fn wanted_parts()
    ensures fits { (shown : Cell → Bool) (ps : List Part) (s t : Store) → PartsStand shown ps s → AgreeIn (wants shown (old_parts ps)) s t → Fits (old_parts ps) s → Fits (new_parts ps) t }
    ensures leaves { (shown : Cell → Bool) (ps : List Part) (s t : Store) → PartsStand shown ps s → AgreeIn (wants shown (old_parts ps)) s t → Fits (old_parts ps) s → AgreeIn shown (store_after (old_parts ps) s) (store_after (new_parts ps) t) }
{}

/// Acts may be exchanged for others where cells get new names, acts that write idle cells alone go, the rest keeps
/// the order of blocks which conflict on other cells, and acts that write idle cells alone come. For the executions of
/// a loop that is reversed, interchanged, skewed, cut in strips, peeled, distributed, fused, made parallel or serial.
pub fn exchange()
    ensures { (e : Exchange) (acts : List Act) (before behind : Cell → Bool) (s : Store) → Fits acts s → IsAllowed e acts before behind s → StandsFor (record { agreed = before; old = acts; new = acts_behind e.coming }) behind s }
{}
