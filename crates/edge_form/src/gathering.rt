//! How pieces become maximal runs.

ghost use Rattle.std.specs.Prelude.{◌≡◌, ◌&&◌, ◌==◌, if◌then◌else◌};
ghost use Rattle.std.specs.Ordering.{int_eq};
ghost use Rattle.drc_geom.specs.Units.{AreSameUnits};
ghost use Rattle.drc_geom.specs.Runs.{IsMaximalRun, IsRun, side_rank, units_of};
ghost use Rattle.std.specs.List.{AllByRecursion};
ghost use Rattle.std.specs.List.Sorted.{IsSorted};
ghost use Rattle.edge_form.specs.Edges.{IsEdgeSet};
ghost use Rattle.edge_form.specs.Working.Gathering.{AreSpaced, further, joined, meets, place_order};

use drc_geom::Run;
use std::cmp::Ordering;

/// Sorts the pieces by side, then by line, then by first column.
pub fn sort_by_place(pieces: &mut Vec<Run>)
    requires { AllByRecursion IsRun pieces.old.items }
    ensures not_empty { AllByRecursion IsRun pieces.new.items }
    ensures sorted { IsSorted place_order pieces.new.items }
    ensures units { AreSameUnits (units_of pieces.new.items) (units_of pieces.old.items) }
{
    pieces.sort_unstable_by(place_cmp);
}

fn place_cmp(a: &Run, b: &Run) -> Ordering
    ensures { result ≡ place_order a.now b.now }
{
    a.side
        .rank()
        .cmp(&b.side.rank())
        .then_with(|| a.line.cmp(&b.line))
        .then_with(|| a.lo.cmp(&b.lo))
}

/// Joins sorted pieces that overlap or touch.
pub fn join(pieces: &mut Vec<Run>)
    requires not_empty { AllByRecursion IsRun pieces.old.items }
    requires sorted { IsSorted place_order pieces.old.items }
    ensures not_empty { AllByRecursion IsRun pieces.new.items }
    ensures spaced { AreSpaced pieces.new.items }
    ensures units { AreSameUnits (units_of pieces.new.items) (units_of pieces.old.items) }
{
    pieces.dedup_by(|piece, run| take_in(run, piece));
}

/// Sorts joined pieces by run order.
pub fn sort_by_run_order(runs: &mut Vec<Run>)
    requires not_empty { AllByRecursion IsRun runs.old.items }
    requires spaced { AreSpaced runs.old.items }
    ensures form { IsEdgeSet runs.new.items }
    ensures units { AreSameUnits (units_of runs.new.items) (units_of runs.old.items) }
{
    runs.sort_unstable();
}

/// Sorts maximal runs by run order, and leaves each once. Where they are in that order, or in the reverse one, this takes
/// one pass.
pub fn sort_whole(runs: &mut Vec<Run>)
    requires { AllByRecursion (IsMaximalRun (units_of runs.old.items)) runs.old.items }
    ensures form { IsEdgeSet runs.new.items }
    ensures units { AreSameUnits (units_of runs.new.items) (units_of runs.old.items) }
{
    runs.sort_unstable();
    runs.dedup();
}

// Where the piece meets the run, takes it in.
fn take_in(run: &mut Run, piece: &Run) -> bool
    ensures meets { result ≡ meets run.old piece.now }
    ensures joined { run.new ≡ (if result then joined run.old piece.now else run.old) }
{
    let meets = meets(run, piece);
    if meets {
        run.hi = further(run.hi, piece.hi);
    }
    meets
}

fn meets(run: &Run, piece: &Run) -> bool
    ensures { result ≡ meets run.now piece.now }
{
    is_on_line(run, piece) && piece.lo <= run.hi
}

fn is_on_line(run: &Run, piece: &Run) -> bool
    ensures { result ≡ ((side_rank run.now.side == side_rank piece.now.side) && int_eq run.now.line piece.now.line) }
{
    run.side == piece.side && run.line == piece.line
}

fn further(a: i64, b: i64) -> i64
    ensures { result ≡ further a b }
{
    a.max(b)
}
