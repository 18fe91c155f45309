//! Acts that are done likewise.

ghost use Rattle.std.specs.Prelude.{◌≡◌, ℕ, List, ◌∷◌, [], ◌++◌, Bool, true, false, ◌⊎◌};
ghost use Rattle.ped_steps.specs.ped_laws.specs.Acts.Conflicts.{without, ReadNone};
ghost use Rattle.ped_steps.specs.ped_laws.specs.Acts.Orders.{IsIn};
ghost use Rattle.ped_steps.specs.ped_laws.specs.Acts.Renaming.{Renamed};
ghost use Rattle.ped_steps.specs.ped_laws.specs.Acts.Sets.{nothing};
ghost use Rattle.ped_steps.specs.ped_store.specs.Acts.{Turn, Act};
ghost use Rattle.ped_steps.specs.ped_store.specs.Cells.{Cell};
ghost use Rattle.ped_steps.specs.ped_store.specs.Races.{Access, is_lines, accesses};
ghost use Rattle.ped_steps.specs.Runs.Renumbering.{renumbered_turn};
ghost use Rattle.ped_steps.specs.Runs.Substituting.{AreSameOn};
ghost use Rattle.ped_bodies.specs.Likewise.{NamesScalars, AreLikewise, IsMadeLikewise, IsOnlyTold};
ghost use Rattle.ped_bodies.specs.Moving.{own_number};

/// What comes of acts that are done likewise. Where no cell is idle they are acts on renamed cells; else they are
/// without what they write to idle cells, if they read none and names lead idle cells to idle cells. In the same
/// iterations under the same numbers each is at its old place. What is done likewise in an iteration is done likewise
/// around it; and lists are put together. For leading bodies to the laws of lists.
pub fn likewise_acts()
    ensures renamed { (name : Cell → Cell) (f : ℕ → ℕ) (turns others : List Turn) (acts fresh : List Act) → AreLikewise name nothing f turns others acts fresh → Renamed name acts fresh }
    ensures stripped { (name : Cell → Cell) (idle : Cell → Bool) (f : ℕ → ℕ) (turns others : List Turn) (acts fresh : List Act) → ((c : Cell) → idle (name c) ≡ idle c) → ReadNone idle acts → AreLikewise name idle f turns others acts fresh → Renamed name (without idle acts) (without idle fresh) × ReadNone idle fresh }
    ensures same { (name : Cell → Cell) (turns : List Turn) (acts fresh : List Act) → AreLikewise name nothing own_number turns turns acts fresh → AreSameOn name acts fresh }
    ensures outside { (name : Cell → Cell) (idle : Cell → Bool) (f : ℕ → ℕ) (turns others : List Turn) (t : Turn) (acts fresh : List Act) → AreLikewise name idle f (turns ++ t ∷ []) (others ++ renumbered_turn f t ∷ []) acts fresh → AreLikewise name idle f turns others acts fresh }
    ensures joined { (name : Cell → Cell) (idle : Cell → Bool) (f : ℕ → ℕ) (turns others : List Turn) (acts fresh more further : List Act) → AreLikewise name idle f turns others acts fresh → AreLikewise name idle f turns others more further → AreLikewise name idle f turns others (acts ++ more) (fresh ++ further) }
{}

/// Each access of acts that are done likewise is made likewise by one of the old acts, or it is no more than the value
/// of a DO variable, which its place gives. For races: what is put in place of a piece has its accesses from there.
pub fn likewise_accesses()
    ensures { (name : Cell → Cell) (idle : Cell → Bool) (f : ℕ → ℕ) (turns others : List Turn) (acts fresh : List Act) → NamesScalars name → ((c : Cell) → idle c ≡ true → is_lines c ≡ false) → AreLikewise name idle f turns others acts fresh → (y : Access) → IsIn y (accesses fresh)
        → ((x : Access) × IsIn x (accesses acts) × IsMadeLikewise name idle f turns others x y) ⊎ IsOnlyTold fresh y }
{}
