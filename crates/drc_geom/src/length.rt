//! What LENGTH keeps of a set of units.

ghost use Rattle.std.specs.Prelude.{Bool, true, ℤ, ◌≡◌, ◌↔◌};
ghost use Rattle.drc_geom.specs.declared.unit.Side.{Side};
ghost use Rattle.drc_geom.specs.declared.run.Run.{Run};
ghost use Rattle.drc_geom.specs.Units.{Units, has_unit};
ghost use Rattle.drc_geom.specs.Runs.{IsMaximalRun, length_of};
ghost use Rattle.drc_geom.specs.Lengths.{IsLength};

/// The law of LENGTH: it keeps one set of units, whose maximal runs are the maximal runs of its input that meet the
/// limits. It is a statement, and does nothing when it is called.
pub fn length_keeps_whole_runs()
    ensures one { (units : Units) → (meets : ℤ → Bool) → (a b : Units) → IsLength units meets a → IsLength units meets b
        → (side : Side) → (line column : ℤ) → has_unit a side line column ≡ has_unit b side line column }
    ensures runs { (units : Units) → (meets : ℤ → Bool) → (kept : Units) → IsLength units meets kept
        → (run : Run) → IsMaximalRun kept run ↔ (IsMaximalRun units run × (meets (length_of run) ≡ true)) }
{}
