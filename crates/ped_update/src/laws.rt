//! What a step back means for the next one. The function does nothing; its contract is the law.

ghost use Rattle.std.specs.Prelude.{◌≡◌};
ghost use Rattle.ped_graph.specs.Held.{Held};
ghost use Rattle.ped_update.specs.Deltas.{HeldDelta, TakesTo, IsSwap};

/// A second swap gives the first state again, and the delta then belongs to it as before.
pub fn second_swap_restores()
    ensures { (first second third : HeldDelta) (g h k m : Held) → TakesTo first g h → IsSwap first g second k → IsSwap second k third m → (m ≡ g) × TakesTo third m h }
{}
