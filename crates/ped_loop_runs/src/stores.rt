//! Stores of a run.

ghost use Rattle.std.specs.Prelude.{◌≡◌, ℕ, List, ◌++◌};
ghost use Rattle.std.specs.Str.Lines.{lines};
ghost use Rattle.ped_bodies.specs.ped_flow.specs.ped_tree.specs.Tree.{ProgramTree};
ghost use Rattle.ped_bodies.specs.ped_laws.specs.Acts.Fitting.{store_after};
ghost use Rattle.ped_bodies.specs.ped_laws.specs.Covering.Within.{HoldsStorable};
ghost use Rattle.ped_bodies.specs.ped_eval.specs.Outcomes.{run_of};
ghost use Rattle.ped_bodies.specs.ped_flow.specs.ped_tree.specs.NamesIn.{all_loop_variables};
ghost use Rattle.ped_bodies.specs.ped_graph.specs.Dependences.{setting_in};
ghost use Rattle.ped_bodies.specs.ped_symbols.specs.NameRefusals.{IsValid};
ghost use Rattle.ped_bodies.specs.ped_store.specs.Acts.{Act};
ghost use Rattle.ped_bodies.specs.ped_store.specs.Stores.{store_at_start};

/// In each store that the first acts of a run of a valid program leave, elements and scalars that are the variable of no
/// DO hold storable numbers alone. So what an expression reads lies in its interval, wherever a step evaluates it.
pub fn stores_hold_storable()
    ensures of_variables { (t : ProgramTree) (data_bytes : List ℕ) → IsValid t → (front behind : List Act) → (run_of t data_bytes).acts ≡ front ++ behind → HoldsStorable (all_loop_variables t.body) (store_after front (store_at_start (lines data_bytes))) }
    ensures in_setting { (t : ProgramTree) (data_bytes : List ℕ) → IsValid t → (front behind : List Act) → (run_of t data_bytes).acts ≡ front ++ behind → (n : ℕ) → HoldsStorable (setting_in t n).loop_variables (store_after front (store_at_start (lines data_bytes))) }
{}
