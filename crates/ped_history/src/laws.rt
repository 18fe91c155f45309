//! What a step means for the next one. Each function here does nothing; its contract is the law.

ghost use Rattle.std.specs.Prelude.{◌≡◌, ◌+◌, List, ◌∷◌};
ghost use Rattle.ped_history.specs.Timeline.{Timeline, timeline, pushed, gone_back, gone_forward};

/// Back after a push gives the former past.
pub fn back_after_push<D>()
    ensures { (h : Timeline D) (d left : D) → (gone_back (pushed d h) left).past ≡ h.past }
{}

/// Forward after back restores the history, where the entry is left as it was.
pub fn forward_after_back<D>()
    ensures { (h : Timeline D) (d : D) (past : List D) → h.past ≡ d ∷ past → gone_forward (gone_back h d) d ≡ h }
{}
