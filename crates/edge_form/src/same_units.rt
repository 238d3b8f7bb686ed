//! A set of units is determined by its units.

ghost use Rattle.std.specs.Prelude.{List, ℤ, ◌≡◌};
ghost use Rattle.drc_geom.specs.declared.run.Run.{Run};
ghost use Rattle.drc_geom.specs.declared.unit.Side.{Side};
ghost use Rattle.drc_geom.specs.Runs.{units_of};
ghost use Rattle.edge_form.specs.Edges.{IsEdgeSet};

/// The law of sets of units: two that have the same units are the same list of runs.
/// It is a statement, and does nothing when it is called.
pub fn same_units_same_runs()
    ensures { (a b : List Run) → IsEdgeSet a → IsEdgeSet b → ((x y : ℤ) → (side : Side) → units_of a x y side ≡ units_of b x y side) → a ≡ b }
{}
