//! That the runs of a boundary can be listed.
//!
//! What a check reports is a list: the maximal runs of some boundary, each once, in run order. An area that rectangles
//! cover is bounded, so its boundary has finitely many runs, and such a list exists, whoever makes it.
//!
//! ```text
//!    +-----+
//!    |     +--+      eight runs, from the lowest and then leftmost on
//!    |        |
//!    +--------+
//! ```
#![tactic(auto)]

ghost use Rattle.std.specs.Prelude.{List};
ghost use Rattle.list_facts.specs.InOrder.{ListsInOrder};
ghost use Rattle.drc_geom.specs.declared.rect.Rect.{Rect};
ghost use Rattle.drc_geom.specs.declared.run.Run.{Run};
ghost use Rattle.drc_geom.specs.Squares.{covered};
ghost use Rattle.drc_geom.specs.Units.{boundary};
ghost use Rattle.drc_geom.specs.Runs.{IsMaximalRun, run_order};

/// The boundary of what rectangles cover has a list of its maximal runs, each once, in run order.
/// It is a statement, and does nothing when it is called.
pub fn boundaries_are_listed()
    ensures { (rects : List Rect) → (runs : List Run)
        × ListsInOrder run_order (IsMaximalRun (boundary (covered rects))) runs }
{}
