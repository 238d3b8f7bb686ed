//! A set of units, and what its callers see of it.

ghost use Rattle.std.specs.Prelude.{◌≡◌, [], ◌∷◌, ◌++◌, ℤ, IfOk, OnOk, OnErr};
ghost use Rattle.std.specs.List.{AllByRecursion};
ghost use Rattle.drc_geom.specs.declared.unit.Side.{Side};
ghost use Rattle.std.specs.declared.cmp.Ordering.TheVariants.{Less};
ghost use Rattle.drc_geom.specs.Runs.{IsMaximalRun, IsRun, run_order, units_of};
ghost use Rattle.edge_form.specs.Edges.{IsClearOf, IsEdgeSet};

use crate::gathering::{join, sort_by_place, sort_by_run_order, sort_whole};
use crate::lookup::finds;
use drc_geom::{Run, Unit};
use std::alloc::{AllocError, Global};
use std::marker::Model;

/// A set of units, as its maximal runs in run order.
#[derive(Debug, Drop)]
pub struct EdgeSet {
    runs: Vec<Run>,
}

impl Model for EdgeSet {
    ghost use Rattle.std.specs.Prelude.{List};
    ghost use Rattle.drc_geom.specs.declared.run.Run.{Run};
    ghost use Rattle.edge_form.specs.Edges.{IsEdgeSet};

    ghost Value = { List Run };

    ghost view = { λ s. s.runs.items };

    ghost invariant = { λ s. IsEdgeSet s.runs.items };
}

impl EdgeSet {
    /// The set that has no unit.
    pub fn new(alloc: Global) -> EdgeSet
        ensures { result ≡ [] }
    {
        EdgeSet {
            runs: Vec::new(alloc),
        }
    }

    /// The units that some piece has. Pieces may stand in any order, overlap, touch and repeat.
    pub fn gather(mut pieces: Vec<Run>) -> EdgeSet
        requires { AllByRecursion IsRun pieces.items }
        ensures { (x y : ℤ) → (side : Side) → units_of result x y side ≡ units_of pieces.items x y side }
    {
        sort_by_place(&mut pieces);
        join(&mut pieces);
        sort_by_run_order(&mut pieces);
        EdgeSet { runs: pieces }
    }

    /// The units of runs that are maximal together. They may stand in any order, and repeat. Where they stand in run order,
    /// or in the reverse of it, this takes one pass.
    pub fn of_whole(mut runs: Vec<Run>) -> EdgeSet
        requires { AllByRecursion (IsMaximalRun (units_of runs.items)) runs.items }
        ensures { (x y : ℤ) → (side : Side) → units_of result x y side ≡ units_of runs.items x y side }
    {
        sort_whole(&mut runs);
        EdgeSet { runs }
    }

    /// Adds a run that stands behind all others in run order, and neither meets nor touches one with its side on its
    /// line. Where memory is wanting, nothing changes.
    pub fn push_run(&mut self, run: Run) -> Result<(), AllocError>
        requires not_empty { IsRun run }
        requires last { AllByRecursion (λ other. run_order other run ≡ Less) self.old }
        requires clear { IsClearOf self.old run }
        ensures ok { OnOk result (self.new ≡ self.old ++ run ∷ []) }
        ensures err { OnErr result (self.new ≡ self.old) }
    {
        self.runs.push(run)?;
        Ok(())
    }

    /// Whether the set has the unit.
    pub fn has(&self, unit: Unit) -> bool
        ensures { result ≡ units_of self.now unit.x unit.y unit.side }
    {
        finds(self.runs.as_slice(), unit)
    }

    /// The runs, in run order.
    pub fn runs(&self) -> &[Run]
        ensures runs { result.now ≡ self.now }
        ensures form { IsEdgeSet result.now }
    {
        self.runs.as_slice()
    }
}
