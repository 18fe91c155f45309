//! Leaving out and putting in: changes to a set of cells that the remaining acts don't read.

ghost use Rattle.std.specs.Prelude.{◌≡◌, List, ◌++◌, Bool, false};
ghost use Rattle.ped_eval.specs.ped_store.specs.Cells.{Cell};
ghost use Rattle.ped_eval.specs.ped_store.specs.Stores.{Store};
ghost use Rattle.ped_eval.specs.ped_store.specs.Acts.{Touch, Act};
ghost use Rattle.ped_laws.specs.Acts.Fitting.{Fits, store_after};
ghost use Rattle.ped_laws.specs.Acts.Sets.{AgreeOutside, written};
ghost use Rattle.ped_laws.specs.Acts.Conflicts.{some_clash, without, LeaveUnread, ReadNone};
ghost use Rattle.ped_laws.specs.Acts.Changes.{Change, acts_before, acts_behind, StaysWithin, ChangeWithin, AreSameOutside, PlainChange};

/// Stripping: acts that don't read a set of cells fit with their writes to it where they fit without them, and the
/// stores agree outside the set. For variables that a loop leaves in another state and that nobody wants.
pub fn without_writes()
    ensures strips { (d : Cell → Bool) (acts : List Act) (s t : Store) → ReadNone d acts → AgreeOutside d s t → Fits acts s → Fits (without d acts) t }
    ensures restores { (d : Cell → Bool) (acts : List Act) (s t : Store) → ReadNone d acts → AgreeOutside d s t → Fits (without d acts) t → Fits acts s }
    ensures leaves { (d : Cell → Bool) (acts : List Act) (s t : Store) → AgreeOutside d s t → AgreeOutside d (store_after acts s) (store_after (without d acts) t) }
{}

/// Acts that write a set of cells alone may go and come, where those that come find what they read, and acts that stay
/// may change on the set. For entries and ends of loops, whose number changes.
pub fn changes()
    ensures fits { (d : Cell → Bool) (w : List Change) (s t : Store) → ChangeWithin d w s t → AgreeOutside d s t → Fits (acts_before w) s → Fits (acts_behind w) t }
    ensures leaves { (d : Cell → Bool) (w : List Change) (s t : Store) → ChangeWithin d w s t → AgreeOutside d s t → Fits (acts_before w) s → AgreeOutside d (store_after (acts_before w) s) (store_after (acts_behind w) t) }
{}

/// Acts that come find what they read where no old act writes it and the store holds it at the start. For the plain
/// bounds of loops that are entered more often than before.
pub fn plain_changes()
    ensures { (d : Cell → Bool) (w : List Change) (s t : Store) → PlainChange d (written (acts_before w)) s w → ChangeWithin d w s t }
{}

/// An act that does the same outside the set may stay. For exits, which change on the set alone.
pub fn same_outside()
    ensures { (d : Cell → Bool) (xs ys : List Touch) (s t : Store) → AreSameOutside d xs ys → StaysWithin d xs ys s t }
{}

/// Touches of one act may change places where they don't clash. For the bounds of a DO, which are read in the other
/// order when the loop is reversed.
pub fn touches_exchanged()
    ensures { (d : Cell → Bool) (xs ys zs : List Touch) (s t : Store) → some_clash xs ys ≡ false → LeaveUnread d (xs ++ (ys ++ zs)) → StaysWithin d (xs ++ (ys ++ zs)) (ys ++ (xs ++ zs)) s t }
{}
