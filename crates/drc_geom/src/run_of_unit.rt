//! The run of a unit.

ghost use Rattle.std.specs.Prelude.{ℤ, ◌≡◌};
ghost use Rattle.drc_geom.specs.declared.unit.Side.{Side};
ghost use Rattle.drc_geom.specs.declared.run.Run.{Run};
ghost use Rattle.drc_geom.specs.Units.{Units};
ghost use Rattle.drc_geom.specs.Runs.{IsRunOf};

/// The law of a unit's run: a unit has at most one. It is a statement, and does nothing when it is called.
pub fn one_run_of_a_unit()
    ensures { (units : Units) → (side : Side) → (line column : ℤ) → (a b : Run) → IsRunOf units side line column a
        → IsRunOf units side line column b → a ≡ b }
{}
