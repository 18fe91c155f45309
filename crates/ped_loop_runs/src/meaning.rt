//! What a step shows, and the meaning that it keeps.

ghost use Rattle.std.specs.Prelude.{◌≡◌, ℕ, List, Bool, ◌||◌, not};
ghost use Rattle.std.specs.List.{flat_map};
ghost use Rattle.ped_bodies.specs.ped_laws.specs.Acts.Sets.{wants};
ghost use Rattle.ped_bodies.specs.ped_store.specs.Cells.{Cell};
ghost use Rattle.ped_bodies.specs.ped_flow.specs.ped_tree.specs.Tree.{StmtTrees, ProgramTree};
ghost use Rattle.ped_bodies.specs.ped_flow.specs.ped_tree.specs.NamesIn.{saved_in};
ghost use Rattle.ped_bodies.specs.ped_eval.specs.Outcomes.{IsRaceFree};
ghost use Rattle.ped_bodies.specs.ped_steps.specs.Runs.Gaps.{Gap};
ghost use Rattle.ped_bodies.specs.ped_steps.specs.Runs.Meaning.{Keeps};
ghost use Rattle.ped_loop_runs.specs.Meaning.{SuitEnds, KeepsOn, IsExchange};

/// A program in which statements are exchanged for others keeps its meaning, where in each execution the new statements
/// do new acts which may stand for the old ones and make no race (ParaScope): on data on which they do, and on all data
/// where they do so on each on which the old program runs without a fault and without a race. The only end of every
/// proof of a step that rewrites a loop: it is about one execution, its iterations and its store.
pub fn exchanged_keeps()
    ensures on_data { (gap : Gap) (old new : StmtTrees) (t u : ProgramTree) (data_bytes : List ℕ) → IsRaceFree t data_bytes → IsExchange gap old new t u data_bytes → KeepsOn t u data_bytes }
    ensures always { (gap : Gap) (old new : StmtTrees) (t u : ProgramTree) → flat_map saved_in u.decls ≡ flat_map saved_in t.decls → ((data_bytes : List ℕ) → IsRaceFree t data_bytes → IsExchange gap old new t u data_bytes) → Keeps t u }
{}

/// Two choices of the cells on which the stores of the old and of the new run agree: those that the old acts want from
/// there on; and all cells but those that are apart, and of these again the ones that are wanted. The second one is for
/// steps that put in reads, as of bounds that nobody may have read before.
pub fn suiting_sets()
    ensures wanted { (shown : Cell → Bool) → SuitEnds shown (wants shown) }
    ensures apart { (apart shown : Cell → Bool) → SuitEnds shown (λ acts c. not (apart c) || wants shown acts c) }
{}
