//! A set of units lists all its maximal runs.

ghost use Rattle.std.specs.Prelude.{List, Contains, ◌↔◌};
ghost use Rattle.drc_geom.specs.declared.run.Run.{Run};
ghost use Rattle.drc_geom.specs.Runs.{IsMaximalRun, units_of};
ghost use Rattle.edge_form.specs.Edges.{IsEdgeSet};

/// The law of the list: a run is in the list of a set of units exactly where it is a maximal run of those units.
/// It is a statement, and does nothing when it is called.
pub fn lists_its_maximal_runs()
    ensures { (runs : List Run) → IsEdgeSet runs → (run : Run) → IsMaximalRun (units_of runs) run ↔ Contains runs run }
{}
