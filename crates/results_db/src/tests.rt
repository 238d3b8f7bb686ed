//! Files of a few checks, byte for byte.

ghost use Rattle.std.specs.Prelude.{◌≡◌, ℤ, IfOk};
ghost use Rattle.std.specs.List.{AllByRecursion};
ghost use Rattle.drc_geom.specs.Runs.{IsRun};

use crate::{Lines, Results, Text, lines_edge};
use drc_geom::{Name, Run, Side};
use edge_form::EdgeSet;
use std::alloc::{AllocError, Global};
use std::test::Fail;

fn run(side: Side, line: i64, lo: i64, hi: i64) -> Run
    ensures { result ≡ record { side = side; line = line; lo = lo; hi = hi } }
{
    Run { side, line, lo, hi }
}

fn lines_of(alloc: Global, runs: &[Run]) -> Result<Lines, AllocError>
    requires { AllByRecursion IsRun runs.now }
{
    lines_edge(alloc, &EdgeSet::gather(Vec::from_slice(alloc, runs)?))
}

/// The bottom and the top of a bar of 100 by 300.
fn bar_ends(alloc: Global) -> Result<Lines, AllocError> {
    lines_of(alloc, &[run(Side::N, 300, 0, 100), run(Side::S, 0, 0, 100)])
}

/// Sides below and left of the origin.
fn far_sides(alloc: Global) -> Result<Lines, AllocError> {
    lines_of(alloc, &[run(Side::W, -5, -70, -8), run(Side::E, 12, -1, 0)])
}

fn file(alloc: Global, limit: Option<u64>) -> Result<Results, AllocError>
    ensures { IfOk result (λ results. results.outputs ≡ 0) }
{
    let primary = Name::new(alloc, b"TOP")?;
    Results::new(alloc, &primary, 1000, b"T1", limit)
}

#[test]
fn a_check_with_two_runs(rt: HostRuntime) -> Result<(), Fail> {
    let alloc = rt.alloc();
    let name = Name::new(alloc, b"SHORT")?;
    let note = [Name::new(alloc, b"short edge")?];
    let ends = bar_ends(alloc)?;
    assert_eq!(rt; ends.found(), 2);
    assert_eq!(rt; ends.count(), 4);
    let mut results = file(alloc, Some(1000))?;
    results.begin(&name, &note)?;
    results.lines(&ends)?;
    let text = results.done()?;
    let want = b"TOP 1000\nSHORT\n2 2 1 T1\nshort edge\ne 1 1\n0 0 100 0\ne 2 1\n0 300 100 300\n";
    assert_eq!(rt; text.bytes.as_slice(), want.as_slice());
    assert_eq!(rt; text.found, 2);
    assert_eq!(rt; text.written, 2);
    Ok(())
}

#[test]
fn results_are_numbered_on_over_outputs(rt: HostRuntime) -> Result<(), Fail> {
    let alloc = rt.alloc();
    let name = Name::new(alloc, b"A")?;
    let mut results = file(alloc, None)?;
    results.begin(&name, &[])?;
    results.lines(&far_sides(alloc)?)?;
    results.lines(&bar_ends(alloc)?)?;
    let text = results.done()?;
    let want =
        b"TOP 1000\nA\n4 4 0 T1\ne 1 1\n-5 -70 -5 -8\ne 2 1\n12 -1 12 0\ne 3 1\n0 0 100 0\ne 4 1\n0 300 100 300\n";
    assert_eq!(rt; text.bytes.as_slice(), want.as_slice());
    Ok(())
}

#[test]
fn the_limit_is_of_each_check(rt: HostRuntime) -> Result<(), Fail> {
    let alloc = rt.alloc();
    let notes = [Name::new(alloc, b"one")?, Name::new(alloc, b"two")?];
    let first = Name::new(alloc, b"A")?;
    let second = Name::new(alloc, b"B")?;
    let third = Name::new(alloc, b"C")?;
    let ends = bar_ends(alloc)?;
    let mut results = file(alloc, Some(3))?;
    results.begin(&first, &notes)?;
    results.lines(&ends)?;
    results.lines(&ends)?;
    results.begin(&second, &[])?;
    results.begin(&third, &[])?;
    results.lines(&ends)?;
    let text = results.done()?;
    let want =
        b"TOP 1000\nA\n3 4 2 T1\none\ntwo\ne 1 1\n0 0 100 0\ne 2 1\n0 300 100 300\ne 3 1\n0 0 100 0\nB\n0 0 0 T1\nC\n2 2 0 T1\ne 1 1\n0 0 100 0\ne 2 1\n0 300 100 300\n";
    assert_eq!(rt; text.bytes.as_slice(), want.as_slice());
    assert_eq!(rt; text.found, 6);
    assert_eq!(rt; text.written, 5);
    Ok(())
}

#[test]
fn no_check(rt: HostRuntime) -> Result<(), Fail> {
    let text = file(rt.alloc(), Some(0))?.done()?;
    assert_eq!(rt; text.bytes.as_slice(), b"TOP 1000\n".as_slice());
    Ok(())
}
