//! What the definitions in `specs/` determine. The functions do nothing; their contracts are the laws.

ghost use Rattle.std.specs.Prelude.{AllPairs};
ghost use Rattle.ped_tree.specs.Tree.{ProgramTree};
ghost use Rattle.ped_refs.specs.References.{references, pairs};
ghost use Rattle.ped_refs.specs.TextPlaces.{IsBefore, place_of, IsKeyBefore, key_of};

/// The references of a program are in text order, and no two at one place.
pub fn references_ascend()
    ensures { (t : ProgramTree) → AllPairs (λ r s. IsBefore (place_of r) (place_of s)) (references t) }
{}

/// The pairs of a program are in the order of their sources and then of their sinks, and no two have both at the
/// same places.
pub fn pairs_ascend()
    ensures { (t : ProgramTree) → AllPairs (λ p q. IsKeyBefore (key_of p) (key_of q)) (pairs (references t)) }
{}
