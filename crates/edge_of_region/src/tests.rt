use crate::boundary;
use drc_geom::{Run, Side};
use interval_row::{Row, Span};
use region_form::{Builder, Region};
use std::alloc::{AllocError, Global};
use std::process::Abort;
use std::test::Fail;

fn span(lo: i64, hi: i64) -> Span {
    Span { lo, hi }
}

fn run(side: Side, line: i64, lo: i64, hi: i64) -> Run {
    Run { side, line, lo, hi }
}

/// From line y on each row has these spans.
#[derive(Clone, Copy)]
struct Line<'a> {
    y: i64,
    spans: &'a [Span],
}

fn from_line<'a>(y: i64, spans: &'a [Span]) -> Line<'a> {
    Line { y, spans }
}

/// A region by the lines where a row begins and the line where the last one ends, with the runs of its boundary.
#[derive(Clone, Copy)]
struct Figure<'a> {
    lines: &'a [Line<'a>],
    top: i64,
    runs: &'a [Run],
}

// A line that doesn't lie above the one before it is left out.
fn region_of(alloc: Global, lines: &[Line], top: i64) -> Result<Region, AllocError> {
    let mut builder = Builder::new(alloc);
    let mut last = i64::MIN;
    for line in lines {
        if last < line.y {
            builder.rise(line.y, Row::gather(alloc, line.spans)?)?;
            last = line.y;
        }
    }
    if last < top {
        builder.rise(top, Row::new(alloc))?;
        return Ok(builder.finish());
    }
    Ok(Region::new(alloc))
}

fn check(rt: &impl Abort, alloc: Global, figure: Figure) -> Result<(), AllocError> {
    let region = region_of(alloc, figure.lines, figure.top)?;
    let edges = boundary(alloc, &region)?;
    assert_eq!(rt; edges.runs(), figure.runs);
    Ok(())
}

#[test]
fn a_square_and_nothing(rt: HostRuntime) -> Result<(), Fail> {
    check(
        &rt,
        rt.alloc(),
        Figure {
            lines: &[from_line(0, &[span(0, 2)])],
            top: 2,
            runs: &[
                run(Side::S, 0, 0, 2),
                run(Side::W, 0, 0, 2),
                run(Side::E, 2, 0, 2),
                run(Side::N, 2, 0, 2),
            ],
        },
    )?;
    check(
        &rt,
        rt.alloc(),
        Figure {
            lines: &[],
            top: 0,
            runs: &[],
        },
    )?;
    Ok(())
}

#[test]
fn an_angle(rt: HostRuntime) -> Result<(), Fail> {
    check(
        &rt,
        rt.alloc(),
        Figure {
            lines: &[from_line(0, &[span(0, 4)]), from_line(2, &[span(0, 1)])],
            top: 3,
            runs: &[
                run(Side::S, 0, 0, 4),
                run(Side::W, 0, 0, 3),
                run(Side::E, 4, 0, 2),
                run(Side::N, 2, 1, 4),
                run(Side::E, 1, 2, 3),
                run(Side::N, 3, 0, 1),
            ],
        },
    )?;
    Ok(())
}

#[test]
fn squares_that_touch_at_a_corner(rt: HostRuntime) -> Result<(), Fail> {
    check(
        &rt,
        rt.alloc(),
        Figure {
            lines: &[from_line(0, &[span(0, 2)]), from_line(2, &[span(2, 4)])],
            top: 4,
            runs: &[
                run(Side::S, 0, 0, 2),
                run(Side::W, 0, 0, 2),
                run(Side::E, 2, 0, 2),
                run(Side::N, 2, 0, 2),
                run(Side::S, 2, 2, 4),
                run(Side::W, 2, 2, 4),
                run(Side::E, 4, 2, 4),
                run(Side::N, 4, 2, 4),
            ],
        },
    )?;
    Ok(())
}

#[test]
fn a_ring(rt: HostRuntime) -> Result<(), Fail> {
    check(
        &rt,
        rt.alloc(),
        Figure {
            lines: &[
                from_line(-2, &[span(-3, 3)]),
                from_line(-1, &[span(-3, -1), span(1, 3)]),
                from_line(1, &[span(-3, 3)]),
            ],
            top: 2,
            runs: &[
                run(Side::S, -2, -3, 3),
                run(Side::W, -3, -2, 2),
                run(Side::E, 3, -2, 2),
                run(Side::N, -1, -1, 1),
                run(Side::E, -1, -1, 1),
                run(Side::W, 1, -1, 1),
                run(Side::S, 1, -1, 1),
                run(Side::N, 2, -3, 3),
            ],
        },
    )?;
    Ok(())
}

#[test]
fn towers_on_one_base(rt: HostRuntime) -> Result<(), Fail> {
    check(
        &rt,
        rt.alloc(),
        Figure {
            lines: &[
                from_line(0, &[span(0, 6)]),
                from_line(1, &[span(0, 2), span(4, 6)]),
                from_line(3, &[span(4, 6)]),
            ],
            top: 5,
            runs: &[
                run(Side::S, 0, 0, 6),
                run(Side::W, 0, 0, 3),
                run(Side::E, 6, 0, 5),
                run(Side::N, 1, 2, 4),
                run(Side::E, 2, 1, 3),
                run(Side::W, 4, 1, 5),
                run(Side::N, 3, 0, 2),
                run(Side::N, 5, 4, 6),
            ],
        },
    )?;
    Ok(())
}
