//! Equal subscripts exclude nothing: the direction vector of the values is one of the view's.

ghost use Rattle.std.specs.Prelude.{◌≡◌, ℕ, ℤ, List, All, Ok, length, map, take, true};
ghost use Rattle.ped_flow.specs.ped_base.specs.Lists.{is_among};
ghost use Rattle.ped_flow.specs.ped_tree.specs.Nests.{indices_of};
ghost use Rattle.ped_graph.specs.ped_views.specs.declared.directions.Direction.{Direction};
ghost use Rattle.ped_graph.specs.ped_views.specs.Views.{View};
ghost use Rattle.ped_graph.specs.ped_views.specs.Excluded.{Indices};
ghost use Rattle.ped_graph.specs.ped_views.specs.Limits.{IsView};
ghost use Rattle.ped_graph.specs.ped_views.specs.Vectors.{IsPossible};
ghost use Rattle.ped_flow.specs.ped_tree.specs.Tree.{ExprTree};
ghost use Rattle.ped_eval.specs.ped_store.specs.Stores.{Store};
ghost use Rattle.ped_eval.specs.Scopes.{Names};
ghost use Rattle.ped_eval.specs.Values.{value};
ghost use Rattle.ped_flow.specs.ped_affine.specs.Ranges.{Setting};
ghost use Rattle.ped_flow.specs.ped_affine.specs.PairViews.{Site, depths_of, terms_of, other_variables, position_of};
ghost use Rattle.ped_laws.specs.Covering.Weights.{HaveValues};
ghost use Rattle.ped_laws.specs.Covering.Together.{StandTogether, IsSolvedBy, indices_among, side_values, AgreeOnOthers, AreDistinct};

/// Where values of the loops make both subscripts of each position equal, no position and no group excludes the vector
/// of their directions: it is one of those of the view.
pub fn equal_subscripts()
    ensures { (v : View) (vector : List Direction) (at : Indices) → IsView v → StandTogether v vector at → All (IsSolvedBy at) v.positions → IsPossible v vector }
{}

/// Where both subscripts of a position evaluate to one number, and the variables that belong to no loop have one value
/// on both sides, the values of the loops' variables make the position's subscripts equal: what the other variables add
/// cancels.
pub fn equal_values()
    ensures { (s : Setting) (source sink : Site) (e g : ExprTree) (from to : List ℕ → ℤ) (at_source at_sink : Names) (before behind : Store) (n : ℤ)
        → let others = other_variables s source sink e g in HaveValues (terms_of s source.nest others) from at_source before → HaveValues (terms_of s sink.nest others) to at_sink behind → AgreeOnOthers (depths_of source sink) (side_values from source others) (side_values to sink others) → (value at_source e before).result ≡ Ok n → (value at_sink g behind).result ≡ Ok n → IsSolvedBy (indices_among (depths_of source sink) (side_values from source others) (side_values to sink others)) (position_of s source sink e g) }
{}

/// Among the values of the unknowns of one side those of its loops come first, one for each, where no two of the loops
/// have one variable. Where both sides have one value for each other variable, they agree on these.
pub fn side_by_side()
    ensures loops { (values : List ℕ → ℤ) (side : Site) (others : List (List ℕ)) → AreDistinct (indices_of side.nest) → take (length (indices_of side.nest)) (side_values values side others) ≡ map values (indices_of side.nest) }
    ensures others { (s : Setting) (source sink : Site) (e g : ExprTree) (from to : List ℕ → ℤ)
        → let others = other_variables s source sink e g in ((x : List ℕ) → is_among x others ≡ true → from x ≡ to x) → AgreeOnOthers (depths_of source sink) (side_values from source others) (side_values to sink others) }
{}
