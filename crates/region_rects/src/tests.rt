use crate::rectangles;
use drc_geom::Rect;
use interval_row::{Row, Span};
use region_form::{Builder, Region};
use std::process::Abort;
use std::test::Fail;

fn rect(x0: i64, y0: i64, x1: i64, y1: i64) -> Rect {
    Rect { x0, y0, x1, y1 }
}

// Columns 0 to 2 in row 0, columns 1 and 2 in rows 1 and 2, and a square that touches these at a corner.
#[test]
fn a_step_and_a_square(rt: HostRuntime) -> Result<(), Fail> {
    let alloc = rt.alloc();
    let mut builder = Builder::new(alloc);
    builder.rise(0, Row::gather(alloc, &[Span { lo: 0, hi: 3 }])?)?;
    builder.rise(1, Row::gather(alloc, &[Span { lo: 1, hi: 3 }])?)?;
    builder.rise(3, Row::gather(alloc, &[Span { lo: 3, hi: 4 }])?)?;
    builder.rise(4, Row::new(alloc))?;
    let rects = rectangles(alloc, &builder.finish())?;
    let expected = [rect(0, 0, 3, 1), rect(1, 1, 3, 3), rect(3, 3, 4, 4)];
    assert_eq!(rt; rects.as_slice(), expected.as_slice());
    Ok(())
}

// A frame two squares wide round a hole of two by two: the rows above and below the hole are whole stretches, and beside it
// stands a stack on either side. Left stacks come before right ones, and lower rectangles before higher ones.
#[test]
fn a_ring(rt: HostRuntime) -> Result<(), Fail> {
    let alloc = rt.alloc();
    let mut builder = Builder::new(alloc);
    builder.rise(0, Row::gather(alloc, &[Span { lo: 0, hi: 6 }])?)?;
    builder.rise(
        2,
        Row::gather(alloc, &[Span { lo: 0, hi: 2 }, Span { lo: 4, hi: 6 }])?,
    )?;
    builder.rise(4, Row::gather(alloc, &[Span { lo: 0, hi: 6 }])?)?;
    builder.rise(6, Row::new(alloc))?;
    let rects = rectangles(alloc, &builder.finish())?;
    let expected = [
        rect(0, 0, 6, 2),
        rect(0, 2, 2, 4),
        rect(4, 2, 6, 4),
        rect(0, 4, 6, 6),
    ];
    assert_eq!(rt; rects.as_slice(), expected.as_slice());
    Ok(())
}

// Three teeth on a bar, of which the left and the right one are equally high: each tooth is one stack, and the bar is
// another. Of no squares there is no rectangle.
#[test]
fn a_comb(rt: HostRuntime) -> Result<(), Fail> {
    let alloc = rt.alloc();
    let (left, middle, right) = (
        Span { lo: -5, hi: -3 },
        Span { lo: -1, hi: 1 },
        Span { lo: 3, hi: 5 },
    );
    let mut builder = Builder::new(alloc);
    builder.rise(-7, Row::gather(alloc, &[Span { lo: -6, hi: 6 }])?)?;
    builder.rise(-6, Row::gather(alloc, &[left, middle, right])?)?;
    builder.rise(2, Row::gather(alloc, &[left, right])?)?;
    builder.rise(9, Row::new(alloc))?;
    let rects = rectangles(alloc, &builder.finish())?;
    let expected = [
        rect(-6, -7, 6, -6),
        rect(-5, -6, -3, 9),
        rect(-1, -6, 1, 2),
        rect(3, -6, 5, 9),
    ];
    assert_eq!(rt; rects.as_slice(), expected.as_slice());
    let none = rectangles(alloc, &Region::new(alloc))?;
    assert_eq!(rt; none.len(), 0);
    Ok(())
}
