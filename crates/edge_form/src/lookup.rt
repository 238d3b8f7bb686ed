//! Which units a run has.

ghost use Rattle.std.specs.Prelude.{◌≡◌, ◌&&◌, ◌==◌, ℤ, pos, ◌+ℤ◌};
ghost use Rattle.std.specs.Ordering.{int_eq};
ghost use Rattle.list_facts.specs.Between.{between};
ghost use Rattle.drc_geom.specs.Units.{column_of, line_of};
ghost use Rattle.drc_geom.specs.Runs.{run_has, side_rank, units_of};

use drc_geom::{Run, Side, Unit};

/// Whether one of the runs has the unit.
pub fn finds(runs: &[Run], unit: Unit) -> bool
    ensures { result ≡ units_of runs.now unit.x unit.y unit.side }
{
    for run in runs {
        if run_has(*run, unit) {
            return true;
        }
    }
    false
}

fn run_has(run: Run, unit: Unit) -> bool
    ensures { result ≡ run_has run unit.side (line_of unit.side unit.x unit.y) (column_of unit.side unit.x unit.y) }
{
    has_line(run, unit) && has_column(run, column_of(unit))
}

fn has_line(run: Run, unit: Unit) -> bool
    ensures { result ≡ ((side_rank run.side == side_rank unit.side) && int_eq run.line (line_of unit.side unit.x unit.y)) }
{
    run.side == unit.side && lies_on(unit, run.line)
}

fn has_column(run: Run, column: i64) -> bool
    ensures { result ≡ between run.lo run.hi column }
{
    run.lo <= column && column < run.hi
}

fn column_of(unit: Unit) -> i64
    ensures { result ≡ column_of unit.side unit.x unit.y }
{
    match unit.side {
        Side::N | Side::S => unit.x,
        Side::E | Side::W => unit.y,
    }
}

fn lies_on(unit: Unit, line: i64) -> bool
    ensures { result ≡ int_eq line (line_of unit.side unit.x unit.y) }
{
    match unit.side {
        Side::N => is_next(line, unit.y),
        Side::E => is_next(line, unit.x),
        Side::S => line == unit.y,
        Side::W => line == unit.x,
    }
}

// Whether the line is the one past this; past the last coordinate there is none.
fn is_next(line: i64, past: i64) -> bool
    ensures { result ≡ int_eq line (past +ℤ pos 1) }
{
    past.checked_add(1) == Some(line)
}
