//! Lists woven anew from blocks and controls.

ghost use Rattle.std.specs.Prelude.{◌≡◌, ◌≤◌, ◌<◌, ℕ, List, ◌++◌, Bool, true, false};
ghost use Rattle.std.specs.List.{flat_map};
ghost use Rattle.ped_laws.specs.ped_store.specs.Acts.{Act};
ghost use Rattle.ped_laws.specs.ped_store.specs.Cells.{Cell};
ghost use Rattle.ped_laws.specs.ped_store.specs.Stores.{Store};
ghost use Rattle.ped_laws.specs.Acts.Fitting.{Fits};
ghost use Rattle.ped_laws.specs.Acts.Sets.{needs, written};
ghost use Rattle.ped_laws.specs.Acts.Conflicts.{blocks_conflict_outside, ReadNone};
ghost use Rattle.ped_laws.specs.Acts.Orders.{IsIn, EachOnce, IsReordered, KeepsOrder, block_conflict};
ghost use Rattle.ped_laws.specs.Acts.Pieces.{StandsFor};
ghost use Rattle.ped_laws.specs.Acts.Renaming.{touch, IsFree};
ghost use Rattle.ped_weaves.specs.Weaves.{Knot, block, Weave, knotted, blocks_in, old_list, new_list, counted, ControlWithin, IsWoven, AreInverse, old_trips, new_trips};

/// A list that is woven anew stands for the old one: blocks, as the bodies of loops in their iterations, may change places
/// where they don't conflict, and touch other cells; controls, as the entries of loops and the ends of iterations, go, and
/// others come. For loops that are reversed, interchanged, skewed, cut in strips, peeled, distributed, fused, made parallel
/// or serial.
pub fn weaving()
    ensures { (w : Weave) (before behind : Cell → Bool) (s : Store) → Fits (old_list w) s → IsWoven w before behind s → StandsFor (record { agreed = before; old = old_list w; new = new_list w }) behind s }
{}

/// What counts of the old list is a part of it, and has no idle cell: what it touches, needs or writes the old list does,
/// and what the old list writes in cells that aren't idle it writes. A cell that keeps its name, which no other gets, and
/// that the old list doesn't write is no new name of a written one. For showing what `weaving` asks of names from what is
/// known of the whole list.
pub fn counted_acts()
    ensures touched { (w : Weave) (c : Cell) → ((i j : ℕ) → IsIn (block i j) w.old → ReadNone w.idle (w.acts i j)) → touch (counted w) c ≡ true → (w.idle c ≡ false) × (touch (old_list w) c ≡ true) }
    ensures needed { (w : Weave) (c : Cell) → ControlWithin w.idle w.old → ((i j : ℕ) → IsIn (block i j) w.old → ReadNone w.idle (w.acts i j)) → needs (counted w) c ≡ true → needs (old_list w) c ≡ true }
    ensures writes { (w : Weave) (c : Cell) → written (counted w) c ≡ true → written (old_list w) c ≡ true }
    ensures written { (w : Weave) (c : Cell) → ControlWithin w.idle w.old → w.idle c ≡ false → written (old_list w) c ≡ true → written (counted w) c ≡ true }
    ensures kept { (w : Weave) (c : Cell) → w.names c ≡ c → IsFree w.names (counted w) c → written (old_list w) c ≡ false → (e : Cell) → written (counted w) e ≡ true → w.names e ≡ c → ⊥ }
{}

/// A list that is woven of rows, one for each of some numbers, has the acts and the blocks of these rows, and each knot
/// is in one of them; and so with two lists, one after the other. For the trips of loops.
pub fn woven_rows()
    ensures acts { (acts : ℕ → ℕ → List Act) (row : ℕ → List Knot) (ns : List ℕ) → knotted acts (flat_map row ns) ≡ flat_map (λ n. knotted acts (row n)) ns }
    ensures blocks { (acts : ℕ → ℕ → List Act) (row : ℕ → List Knot) (ns : List ℕ) → blocks_in acts (flat_map row ns) ≡ flat_map (λ n. blocks_in acts (row n)) ns }
    ensures among { (row : ℕ → List Knot) (ns : List ℕ) (k : Knot) → IsIn k (flat_map row ns) → (n : ℕ) × IsIn n ns × IsIn k (row n) }
    ensures joined { (acts : ℕ → ℕ → List Act) (ks ls : List Knot) → (knotted acts (ks ++ ls) ≡ knotted acts ks ++ knotted acts ls) × (blocks_in acts (ks ++ ls) ≡ blocks_in acts ks ++ blocks_in acts ls) }
{}

/// Trips of a loop that get new numbers, each a block with its old and its new one, are ordered by the old numbers in
/// the old list and by the new ones in the new list; and where no two that conflict outside the set change places, the
/// order of blocks that conflict is kept. For a loop whose trips are done in reverse, or in the same order.
pub fn trips_reordered()
    ensures { (idle : Cell → Bool) (acts : ℕ → ℕ → List Act) (n : ℕ) (to of : ℕ → ℕ) → AreInverse n to of → ((k l : ℕ) → 1 ≤ k → k < l → l ≤ n → to l < to k → blocks_conflict_outside idle (acts k (to k)) (acts l (to l)) ≡ false)
        → EachOnce (old_trips acts n to) × IsReordered (old_trips acts n to) (new_trips acts n of) × KeepsOrder (block_conflict idle) (old_trips acts n to) (new_trips acts n of) }
{}
