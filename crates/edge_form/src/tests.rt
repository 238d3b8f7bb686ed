ghost use Rattle.std.specs.List.{AllByRecursion};
ghost use Rattle.std.specs.Prelude.{◌≡◌};
ghost use Rattle.drc_geom.specs.Runs.{IsRun};

use crate::EdgeSet;
use drc_geom::Side::{E, N, S, W};
use drc_geom::{Run, Side, Unit};
use std::alloc::{AllocError, Global};
use std::process::Abort;
use std::test::Fail;

fn run(side: Side, line: i64, lo: i64, hi: i64) -> Run
    ensures { result ≡ record { side = side; line = line; lo = lo; hi = hi } }
{
    Run { side, line, lo, hi }
}

fn set_of(alloc: Global, pieces: &[Run]) -> Result<EdgeSet, AllocError>
    requires { AllByRecursion IsRun pieces.now }
{
    Ok(EdgeSet::gather(Vec::from_slice(alloc, pieces)?))
}

// Each table has pieces, and the runs that they are gathered into.
fn check(rt: &impl Abort, alloc: Global, pieces: &[Run], runs: &[Run]) -> Result<(), AllocError>
    requires { AllByRecursion IsRun pieces.now }
{
    let set = set_of(alloc, pieces)?;
    assert_eq!(rt; set.runs(), runs);
    Ok(())
}

#[test]
fn pieces_on_one_line(rt: HostRuntime) -> Result<(), Fail> {
    let alloc = rt.alloc();
    check(&rt, alloc, &[], &[])?;
    let overlapping = [run(N, 1, 2, 5), run(N, 1, 0, 3)];
    check(&rt, alloc, &overlapping, &[run(N, 1, 0, 5)])?;
    let touching = [run(E, 1, 0, 2), run(E, 1, 4, 6), run(E, 1, 2, 4)];
    check(&rt, alloc, &touching, &[run(E, 1, 0, 6)])?;
    let repeated = [run(S, -1, -4, -2), run(S, -1, -4, -2)];
    check(&rt, alloc, &repeated, &[run(S, -1, -4, -2)])?;
    let one_inside = [run(W, 0, 3, 4), run(W, 0, 0, 9), run(W, 0, 5, 9)];
    check(&rt, alloc, &one_inside, &[run(W, 0, 0, 9)])?;
    let with_a_gap = [run(N, 1, 3, 4), run(N, 1, 0, 2)];
    check(&rt, alloc, &with_a_gap, &[run(N, 1, 0, 2), run(N, 1, 3, 4)])?;
    Ok(())
}

#[test]
fn pieces_on_several_lines_and_sides(rt: HostRuntime) -> Result<(), Fail> {
    let alloc = rt.alloc();
    let two_squares = [
        run(E, 2, 0, 1),
        run(N, 1, 1, 2),
        run(S, 0, 1, 2),
        run(W, 0, 0, 1),
        run(N, 1, 0, 1),
        run(S, 0, 0, 1),
    ];
    let boundary = [
        run(S, 0, 0, 2),
        run(W, 0, 0, 1),
        run(E, 2, 0, 1),
        run(N, 1, 0, 2),
    ];
    check(&rt, alloc, &two_squares, &boundary)?;
    let four_sides = [
        run(W, 3, 3, 5),
        run(E, 3, 3, 5),
        run(S, 3, 3, 5),
        run(N, 3, 3, 5),
    ];
    let by_rank = [
        run(N, 3, 3, 5),
        run(S, 3, 3, 5),
        run(E, 3, 3, 5),
        run(W, 3, 3, 5),
    ];
    check(&rt, alloc, &four_sides, &by_rank)?;
    let two_lines = [run(N, 1, 2, 4), run(N, 0, 0, 2)];
    check(&rt, alloc, &two_lines, &[run(N, 0, 0, 2), run(N, 1, 2, 4)])?;
    Ok(())
}

#[test]
fn units_at_both_ends_of_runs(rt: HostRuntime) -> Result<(), Fail> {
    let runs = [
        run(N, 7, 2, 5),
        run(S, 7, 12, 15),
        run(E, 7, 2, 5),
        run(W, 7, 12, 15),
    ];
    let set = set_of(rt.alloc(), &runs)?;
    let table = [
        (1, 6, N, false),
        (2, 6, N, true),
        (4, 6, N, true),
        (5, 6, N, false),
        (2, 7, N, false),
        (11, 7, S, false),
        (12, 7, S, true),
        (14, 7, S, true),
        (15, 7, S, false),
        (2, 7, S, false),
        (6, 1, E, false),
        (6, 2, E, true),
        (6, 4, E, true),
        (6, 5, E, false),
        (7, 2, E, false),
        (7, 11, W, false),
        (7, 12, W, true),
        (7, 14, W, true),
        (7, 15, W, false),
        (7, 2, W, false),
    ];
    for (x, y, side, is_in) in table {
        assert_eq!(rt; set.has(Unit { x, y, side }), is_in, "at {x}, {y}");
    }
    Ok(())
}

#[test]
fn units_at_the_last_coordinate(rt: HostRuntime) -> Result<(), Fail> {
    let runs = [run(N, i64::MAX, 0, 2), run(E, i64::MIN, 0, 2)];
    let set = set_of(rt.alloc(), &runs)?;
    let table = [
        (0, i64::MAX, N, false),
        (0, i64::MAX - 1, N, true),
        (i64::MAX, 0, E, false),
        (i64::MAX - 1, 0, E, false),
    ];
    for (x, y, side, is_in) in table {
        assert_eq!(rt; set.has(Unit { x, y, side }), is_in, "at {x}, {y}");
    }
    Ok(())
}

#[test]
fn runs_pushed_one_by_one(rt: HostRuntime) -> Result<(), Fail> {
    let mut set = EdgeSet::new(rt.alloc());
    assert!(rt; set.runs().is_empty());
    set.push_run(run(S, 0, 0, 2))?;
    set.push_run(run(W, 0, 0, 1))?;
    let pushed = [run(S, 0, 0, 2), run(W, 0, 0, 1)];
    assert_eq!(rt; set.runs(), pushed.as_slice());
    Ok(())
}
