use crate::{Builder, Climb, Flip, Region};
use interval_row::{Row, Span};
use std::alloc::{AllocError, Global};
use std::process::Abort;
use std::test::Fail;

fn span(lo: i64, hi: i64) -> Span {
    Span { lo, hi }
}

fn flip(y: i64, x0: i64, x1: i64) -> Flip {
    Flip { y, x0, x1 }
}

/// From line y on each row has these spans.
#[derive(Clone, Copy)]
struct Line<'a> {
    y: i64,
    spans: &'a [Span],
}

fn from_line<'a>(y: i64, spans: &'a [Span]) -> Line<'a> {
    Line { y, spans }
}

/// A region by the lines where a row begins and the line where the last one ends, with the flips that it has.
#[derive(Clone, Copy)]
struct Figure<'a> {
    lines: &'a [Line<'a>],
    top: i64,
    flips: &'a [Flip],
}

// A line that doesn't lie above the one before it is left out.
fn region_of(alloc: Global, lines: &[Line], top: i64) -> Result<Region, AllocError> {
    let mut builder = Builder::new(alloc);
    let mut last = i64::MIN;
    for line in lines {
        if last < line.y {
            builder.rise(line.y, Row::gather(alloc, line.spans)?)?;
            last = line.y;
        }
    }
    if last < top {
        builder.rise(top, Row::new(alloc))?;
        return Ok(builder.finish());
    }
    Ok(Region::new(alloc))
}

fn climb_figure(
    rt: &impl Abort,
    alloc: Global,
    region: &Region,
    figure: Figure,
) -> Result<(), AllocError> {
    let mut climb = Climb::new(alloc, region);
    let mut below: &[Span] = &[];
    for line in figure.lines {
        assert_eq!(rt; climb.row().list(), below, "the row below {}", line.y);
        let Some(next) = climb.next_line() else {
            panic!(rt; "no line at {}", line.y);
        };
        assert_eq!(rt; next, line.y);
        let passed = climb.pass(next)?;
        assert_eq!(rt; passed.list(), below, "the row passed at {next}");
        below = line.spans;
    }
    assert_eq!(rt; climb.next_line(), Some(figure.top));
    Ok(())
}

fn check_figure(rt: &impl Abort, alloc: Global, figure: Figure) -> Result<(), AllocError> {
    let region = region_of(alloc, figure.lines, figure.top)?;
    assert_eq!(rt; region.flips(), figure.flips);
    climb_figure(rt, alloc, &region, figure)
}

#[test]
fn a_square_and_nothing(rt: HostRuntime) -> Result<(), Fail> {
    check_figure(
        &rt,
        rt.alloc(),
        Figure {
            lines: &[from_line(0, &[span(1, 4)])],
            top: 3,
            flips: &[flip(0, 1, 4), flip(3, 1, 4)],
        },
    )?;
    let nothing = region_of(rt.alloc(), &[], 0)?;
    assert_eq!(rt; nothing.flips(), Region::new(rt.alloc()).flips());
    Ok(())
}

#[test]
fn a_step(rt: HostRuntime) -> Result<(), Fail> {
    check_figure(
        &rt,
        rt.alloc(),
        Figure {
            lines: &[from_line(0, &[span(1, 7)]), from_line(2, &[span(2, 6)])],
            top: 3,
            flips: &[flip(0, 1, 7), flip(2, 1, 2), flip(2, 6, 7), flip(3, 2, 6)],
        },
    )?;
    Ok(())
}

#[test]
fn windows_inside_windows(rt: HostRuntime) -> Result<(), Fail> {
    check_figure(
        &rt,
        rt.alloc(),
        Figure {
            lines: &[
                from_line(-5, &[span(-5, 5)]),
                from_line(-3, &[span(-5, -3), span(3, 5)]),
                from_line(-1, &[span(-5, -3), span(-1, 1), span(3, 5)]),
                from_line(1, &[span(-5, -3), span(3, 5)]),
                from_line(3, &[span(-5, 5)]),
            ],
            top: 5,
            flips: &[
                flip(-5, -5, 5),
                flip(-3, -3, 3),
                flip(-1, -1, 1),
                flip(1, -1, 1),
                flip(3, -3, 3),
                flip(5, -5, 5),
            ],
        },
    )?;
    Ok(())
}

#[test]
fn squares_that_touch_at_a_corner(rt: HostRuntime) -> Result<(), Fail> {
    check_figure(
        &rt,
        rt.alloc(),
        Figure {
            lines: &[from_line(0, &[span(0, 2)]), from_line(2, &[span(2, 4)])],
            top: 4,
            flips: &[flip(0, 0, 2), flip(2, 0, 4), flip(4, 2, 4)],
        },
    )?;
    Ok(())
}

#[test]
fn one_set_built_in_two_ways(rt: HostRuntime) -> Result<(), Fail> {
    let at_once = region_of(rt.alloc(), &[from_line(0, &[span(0, 6)])], 4)?;
    let in_parts = region_of(
        rt.alloc(),
        &[
            from_line(-1, &[]),
            from_line(0, &[span(0, 3), span(3, 6)]),
            from_line(1, &[span(4, 6), span(0, 5)]),
            from_line(3, &[span(0, 6)]),
            from_line(4, &[]),
        ],
        9,
    )?;
    assert_eq!(rt; at_once.flips(), in_parts.flips());
    Ok(())
}

#[test]
fn squares_at_both_sides_of_each_border(rt: HostRuntime) -> Result<(), Fail> {
    let region = region_of(
        rt.alloc(),
        &[
            from_line(0, &[span(1, 7)]),
            from_line(2, &[span(2, 3), span(5, 6)]),
        ],
        4,
    )?;
    let table = [
        (1, -1, false),
        (0, 0, false),
        (1, 0, true),
        (6, 1, true),
        (7, 1, false),
        (1, 2, false),
        (2, 2, true),
        (3, 2, false),
        (5, 3, true),
        (6, 3, false),
        (5, 4, false),
    ];
    for (x, y, is_in) in table {
        assert_eq!(rt; region.covers(x, y), is_in, "at {x}, {y}");
    }
    assert!(rt; !Region::new(rt.alloc()).covers(0, 0));
    Ok(())
}
