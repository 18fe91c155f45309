//! Reordering: acts and blocks of acts in another order, where each dependence is kept.

ghost use Rattle.std.specs.Prelude.{◌≡◌, ◌≤◌, ◌<◌, ℕ, List, [], ◌∷◌, ◌++◌, reverse, Bool, true, false};
ghost use Rattle.ped_eval.specs.ped_store.specs.Cells.{Cell};
ghost use Rattle.ped_eval.specs.ped_store.specs.Stores.{Store};
ghost use Rattle.ped_eval.specs.ped_store.specs.Acts.{Act};
ghost use Rattle.ped_laws.specs.Acts.Fitting.{Fits, store_after};
ghost use Rattle.ped_laws.specs.Acts.Sets.{AgreeOutside};
ghost use Rattle.ped_laws.specs.Acts.Conflicts.{acts_conflict, blocks_conflict, blocks_conflict_outside, ReadNone};
ghost use Rattle.ped_laws.specs.Acts.Grids.{IsRising, by_rows, by_columns};
ghost use Rattle.ped_laws.specs.Acts.Orders.{IsIn, StandsBefore, EachOnce, HaveSameItems, IsReordered, KeepsOrder, Numbered, number_from, acts_in, numbered_conflict, IsSortedBy, acts_in_all, AreApart, Block, acts_in_blocks, block_conflict, IsByRows, IsByColumns, NoneCrosses};

/// Where a list fits a store, each permutation of it that keeps the order of every two conflicting acts fits that store
/// and leaves the same one. Where no act reads a set of cells, only acts that conflict outside it need keep their
/// order, and the stores agree outside the set.
pub fn reordering()
    ensures fits { (acts : List Act) (order : List Numbered) (s : Store) → IsReordered (number_from 0 acts) order → KeepsOrder (λ x y. acts_conflict x.act y.act) (number_from 0 acts) order → Fits acts s → Fits (acts_in order) s }
    ensures leaves { (acts : List Act) (order : List Numbered) (s : Store) → IsReordered (number_from 0 acts) order → KeepsOrder (λ x y. acts_conflict x.act y.act) (number_from 0 acts) order → store_after (acts_in order) s ≡ store_after acts s }
    ensures fits_outside { (d : Cell → Bool) (acts : List Act) (order : List Numbered) (s t : Store) → IsReordered (number_from 0 acts) order → KeepsOrder (numbered_conflict d) (number_from 0 acts) order → ReadNone d acts → AgreeOutside d s t → Fits acts s → Fits (acts_in order) t }
    ensures leaves_outside { (d : Cell → Bool) (acts : List Act) (order : List Numbered) (s t : Store) → IsReordered (number_from 0 acts) order → KeepsOrder (numbered_conflict d) (number_from 0 acts) order → AgreeOutside d s t → AgreeOutside d (store_after acts s) (store_after (acts_in order) t) }
{}

/// An act with which none before it conflicts moves to the front. For interleavings, where any iteration may go on.
pub fn to_the_front()
    ensures fits { (left right : List Act) (a : Act) (s : Store) → ((x : Act) → IsIn x left → acts_conflict x a ≡ false) → Fits (left ++ a ∷ right) s → Fits (a ∷ (left ++ right)) s }
    ensures leaves { (left right : List Act) (a : Act) (s : Store) → ((x : Act) → IsIn x left → acts_conflict x a ≡ false) → store_after (a ∷ (left ++ right)) s ≡ store_after (left ++ a ∷ right) s }
{}

/// Two neighbouring blocks that don't conflict change places. For two statements, or two loops, one after the other.
pub fn blocks_exchanged()
    ensures fits { (ws xs ys zs : List Act) (s : Store) → blocks_conflict xs ys ≡ false → Fits (ws ++ ((xs ++ ys) ++ zs)) s → Fits (ws ++ ((ys ++ xs) ++ zs)) s }
    ensures leaves { (ws xs ys zs : List Act) (s : Store) → blocks_conflict xs ys ≡ false → store_after (ws ++ ((ys ++ xs) ++ zs)) s ≡ store_after (ws ++ ((xs ++ ys) ++ zs)) s }
    ensures fits_outside { (d : Cell → Bool) (xs ys : List Act) (s t : Store) → blocks_conflict_outside d xs ys ≡ false → ReadNone d (xs ++ ys) → AgreeOutside d s t → Fits (xs ++ ys) s → Fits (ys ++ xs) t }
    ensures leaves_outside { (d : Cell → Bool) (xs ys : List Act) (s t : Store) → blocks_conflict_outside d xs ys ≡ false → AgreeOutside d s t → AgreeOutside d (store_after (xs ++ ys) s) (store_after (ys ++ xs) t) }
{}

/// Blocks in another order that keeps the order of every two which conflict outside the set. For iterations of a loop
/// in another order.
pub fn blocks_reordered()
    ensures fits { (d : Cell → Bool) (blocks order : List Block) (s t : Store) → EachOnce blocks → IsReordered blocks order → KeepsOrder (block_conflict d) blocks order → ReadNone d (acts_in_blocks blocks) → AgreeOutside d s t → Fits (acts_in_blocks blocks) s → Fits (acts_in_blocks order) t }
    ensures leaves { (d : Cell → Bool) (blocks order : List Block) (s t : Store) → EachOnce blocks → IsReordered blocks order → KeepsOrder (block_conflict d) blocks order → AgreeOutside d s t → AgreeOutside d (store_after (acts_in_blocks blocks) s) (store_after (acts_in_blocks order) t) }
{}

/// Blocks of which no two conflict outside the set, last to first. For loop reversal: no dependence is carried.
pub fn blocks_reversed()
    ensures fits { (d : Cell → Bool) (bs : List (List Act)) (s t : Store) → AreApart d bs → ReadNone d (acts_in_all bs) → AgreeOutside d s t → Fits (acts_in_all bs) s → Fits (acts_in_all (reverse bs)) t }
    ensures leaves { (d : Cell → Bool) (bs : List (List Act)) (s t : Store) → AreApart d bs → AgreeOutside d s t → AgreeOutside d (store_after (acts_in_all bs) s) (store_after (acts_in_all (reverse bs)) t) }
{}

/// Acts sorted by a key that acts which conflict outside the set respect. For any change that is given by a schedule.
pub fn sorted_by_key()
    ensures fits { (d : Cell → Bool) (key : Numbered → ℕ) (acts : List Act) (order : List Numbered) (s t : Store) → IsReordered (number_from 0 acts) order → IsSortedBy key order → ((x y : Numbered) → StandsBefore x y (number_from 0 acts) → numbered_conflict d x y ≡ true → key x ≤ key y) → ReadNone d acts → AgreeOutside d s t → Fits acts s → Fits (acts_in order) t }
    ensures leaves { (d : Cell → Bool) (key : Numbered → ℕ) (acts : List Act) (order : List Numbered) (s t : Store) → IsReordered (number_from 0 acts) order → IsSortedBy key order → ((x y : Numbered) → StandsBefore x y (number_from 0 acts) → numbered_conflict d x y ≡ true → key x ≤ key y) → AgreeOutside d s t → AgreeOutside d (store_after acts s) (store_after (acts_in order) t) }
{}

/// Blocks with two numbers each, from the order of (i,j) to that of (j,i), where none conflicts outside the set with one
/// of a greater i and a lesser j. For loop interchange, and, where the one number is that of a block of the body, for
/// distribution and fusion.
pub fn rows_to_columns()
    ensures fits { (d : Cell → Bool) (rows columns : List Block) (s t : Store) → IsByRows rows → IsByColumns columns → HaveSameItems rows columns → NoneCrosses d rows → ReadNone d (acts_in_blocks rows) → AgreeOutside d s t → Fits (acts_in_blocks rows) s → Fits (acts_in_blocks columns) t }
    ensures leaves { (d : Cell → Bool) (rows columns : List Block) (s t : Store) → IsByRows rows → IsByColumns columns → HaveSameItems rows columns → NoneCrosses d rows → AgreeOutside d s t → AgreeOutside d (store_after (acts_in_blocks rows) s) (store_after (acts_in_blocks columns) t) }
{}

/// Orders of blocks that keep what conflicts: each block once by rows; as they are; in reverse, where no two conflict;
/// by columns, where none crosses. For what an exchange asks of its blocks.
pub fn orders_kept()
    ensures once { (blocks : List Block) → IsByRows blocks → EachOnce blocks }
    ensures in_order { (d : Cell → Bool) (blocks : List Block) → EachOnce blocks → IsReordered blocks blocks × KeepsOrder (block_conflict d) blocks blocks }
    ensures in_reverse { (d : Cell → Bool) (blocks : List Block) → EachOnce blocks → ((x y : Block) → StandsBefore x y blocks → block_conflict d x y ≡ false) → IsReordered blocks (reverse blocks) × KeepsOrder (block_conflict d) blocks (reverse blocks) }
    ensures by_columns { (d : Cell → Bool) (rows columns : List Block) → IsByRows rows → IsByColumns columns → HaveSameItems rows columns → NoneCrosses d rows → IsReordered rows columns × KeepsOrder (block_conflict d) rows columns }
{}

/// The blocks of the iterations of two loops by rows and by columns, where only some pairs of iterations are done: they
/// are the same, each in its order, and none crosses where no two iterations do. For loops that are interchanged,
/// triangular ones too, and for the parts of a body.
pub fn grids()
    ensures rows { (done : ℕ → ℕ → Bool) (acts : ℕ → ℕ → List Act) (outer inner : List ℕ) → IsRising outer → IsRising inner → IsByRows (by_rows done acts outer inner) }
    ensures columns { (done : ℕ → ℕ → Bool) (acts : ℕ → ℕ → List Act) (outer inner : List ℕ) → IsRising outer → IsRising inner → IsByColumns (by_columns done acts outer inner) }
    ensures same { (done : ℕ → ℕ → Bool) (acts : ℕ → ℕ → List Act) (outer inner : List ℕ) → HaveSameItems (by_rows done acts outer inner) (by_columns done acts outer inner) }
    ensures crosses { (d : Cell → Bool) (done : ℕ → ℕ → Bool) (acts : ℕ → ℕ → List Act) (outer inner : List ℕ) → ((i j k l : ℕ) → IsIn i outer → IsIn j inner → IsIn k outer → IsIn l inner → done i j ≡ true → done k l ≡ true → i < k → l < j → blocks_conflict_outside d (acts i j) (acts k l) ≡ false) → NoneCrosses d (by_rows done acts outer inner) }
{}
