//! Parts of a list exchanged for others, where new acts may read what no old act wants.

ghost use Rattle.std.specs.Prelude.{◌≡◌, List, ◌++◌, Bool, true, false};
ghost use Rattle.ped_laws.specs.ped_store.specs.Cells.{Cell};
ghost use Rattle.ped_laws.specs.ped_store.specs.Stores.{Store};
ghost use Rattle.ped_laws.specs.ped_store.specs.Acts.{Act};
ghost use Rattle.ped_laws.specs.Acts.Fitting.{Fits, store_after};
ghost use Rattle.ped_laws.specs.Acts.Sets.{AgreeIn, wants};
ghost use Rattle.ped_laws.specs.Acts.Pieces.{StandsFor, Part, old_parts, new_parts};
ghost use Rattle.ped_weaves.specs.Apart.{agreed, agreed_at_end, PartsStandApart};
ghost use Rattle.ped_weaves.specs.Puttings.{Suit};

/// Where each changed part may stand for the old one from stores that differ only on cells that are apart and that the
/// old acts don't want from there on, the new list fits where the old one does, and at the end the stores differ only
/// on such cells that aren't shown. For steps that put in entries of loops, whose bounds nobody may have read before.
pub fn parts_apart()
    ensures fits { (apart shown : Cell → Bool) (ps : List Part) (s t : Store) → PartsStandApart apart shown ps s → AgreeIn (agreed apart shown (old_parts ps)) s t → Fits (old_parts ps) s → Fits (new_parts ps) t }
    ensures leaves { (apart shown : Cell → Bool) (ps : List Part) (s t : Store) → PartsStandApart apart shown ps s → AgreeIn (agreed apart shown (old_parts ps)) s t → Fits (old_parts ps) s → AgreeIn (agreed_at_end apart shown) (store_after (old_parts ps) s) (store_after (new_parts ps) t) }
{}

/// The sets on which the stores agree suit acts with idle cells that are apart and that nobody wants after the acts.
/// For what the laws below ask of a part of a program's run.
pub fn agreed_sets()
    ensures { (apart shown idle : Cell → Bool) (acts rest : List Act) → ((c : Cell) → idle c ≡ true → (apart c ≡ true) × (wants shown rest c ≡ false)) → Suit idle (agreed apart shown (acts ++ rest)) (agreed apart shown rest) acts }
{}

/// Pieces that stand for others, one after the other, stand for them together; and a piece stands for another where
/// more is agreed on before it, or less is asked after it. For a loop whose entry is one piece and the rest another.
pub fn standing_pieces()
    ensures joined { (before middle behind : Cell → Bool) (first others rest more : List Act) (s : Store) → StandsFor (record { agreed = before; old = first; new = others }) middle s → StandsFor (record { agreed = middle; old = rest; new = more }) behind (store_after first s)
        → StandsFor (record { agreed = before; old = first ++ rest; new = others ++ more }) behind s }
    ensures sets { (before more behind less : Cell → Bool) (acts others : List Act) (s : Store) → StandsFor (record { agreed = before; old = acts; new = others }) behind s → ((c : Cell) → before c ≡ true → more c ≡ true) → ((c : Cell) → less c ≡ true → behind c ≡ true)
        → StandsFor (record { agreed = more; old = acts; new = others }) less s }
{}
