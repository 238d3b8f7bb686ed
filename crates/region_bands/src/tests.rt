use crate::{Band, push_band};
use interval_row::{Row, Span};
use region_form::Region;
use std::alloc::{AllocError, Global};
use std::process::Abort;
use std::test::Fail;

/// A piece that is cut out of the plane: a band whose row is a list of spans.
#[derive(Clone, Copy)]
struct Piece<'a> {
    y0: i64,
    y1: i64,
    row: &'a [Span],
}

fn span(lo: i64, hi: i64) -> Span {
    Span { lo, hi }
}

fn cut<'a>(y0: i64, y1: i64, row: &'a [Span]) -> Piece<'a> {
    Piece { y0, y1, row }
}

// The region of ascending pieces.
fn region_of(alloc: Global, pieces: &[Piece]) -> Result<Region, AllocError> {
    let mut region = Region::new(alloc);
    let mut top = i64::MIN;
    for piece in pieces {
        if top <= piece.y0 && piece.y0 < piece.y1 {
            let row = Row::gather(alloc, piece.row)?;
            push_band(
                &mut region,
                Band {
                    y0: piece.y0,
                    y1: piece.y1,
                    row,
                },
            )?;
            top = piece.y1;
        }
    }
    Ok(region)
}

// The region of the pieces has these bands, and the same flips as the region of the bands.
fn check(
    rt: &impl Abort,
    alloc: Global,
    pieces: &[Piece],
    bands: &[Piece],
) -> Result<(), AllocError> {
    let region = region_of(alloc, pieces)?;
    let same = region_of(alloc, bands)?;
    assert_eq!(rt; region.flips(), same.flips());
    let found = crate::bands(&region)?;
    assert_eq!(rt; found.len(), bands.len());
    for (band, wanted) in found.iter().zip(bands) {
        assert_eq!(rt; (band.y0, band.y1), (wanted.y0, wanted.y1));
        assert_eq!(rt; band.row.list(), wanted.row);
    }
    Ok(())
}

#[test]
fn no_band(rt: HostRuntime) -> Result<(), Fail> {
    check(&rt, rt.alloc(), &[], &[])?;
    check(&rt, rt.alloc(), &[cut(0, 5, &[])], &[])?;
    Ok(())
}

#[test]
fn two_steps(rt: HostRuntime) -> Result<(), Fail> {
    let low = [span(1, 7)];
    let high = [span(2, 6)];
    let bands = [cut(0, 2, &low), cut(2, 3, &high)];
    let finer = [
        cut(-1, 0, &[]),
        cut(0, 1, &low),
        cut(1, 2, &low),
        cut(2, 3, &high),
        cut(3, 9, &[]),
    ];
    check(&rt, rt.alloc(), &bands, &bands)?;
    check(&rt, rt.alloc(), &finer, &bands)?;
    Ok(())
}

#[test]
fn squares_that_touch_at_a_corner(rt: HostRuntime) -> Result<(), Fail> {
    let low = [span(0, 2)];
    let high = [span(2, 4)];
    let bands = [cut(0, 2, &low), cut(2, 4, &high)];
    check(&rt, rt.alloc(), &bands, &bands)?;
    let region = region_of(rt.alloc(), &bands)?;
    assert_eq!(rt;
        region.flips().len(),
        3,
        "one flip on the line of the corner"
    );
    Ok(())
}

#[test]
fn squares_with_a_gap_between(rt: HostRuntime) -> Result<(), Fail> {
    let row = [span(-3, -1)];
    let bands = [cut(-6, -4, &row), cut(-2, 1, &row)];
    let finer = [
        cut(-6, -5, &row),
        cut(-5, -4, &row),
        cut(-4, -2, &[]),
        cut(-2, 1, &row),
    ];
    check(&rt, rt.alloc(), &bands, &bands)?;
    check(&rt, rt.alloc(), &finer, &bands)?;
    Ok(())
}

#[test]
fn windows_inside_windows(rt: HostRuntime) -> Result<(), Fail> {
    let full = [span(0, 9)];
    let window = [span(0, 1), span(8, 9)];
    let block = [span(0, 1), span(2, 7), span(8, 9)];
    let hole = [span(0, 1), span(2, 3), span(6, 7), span(8, 9)];
    let bands = [
        cut(0, 1, &full),
        cut(1, 2, &window),
        cut(2, 3, &block),
        cut(3, 6, &hole),
        cut(6, 7, &block),
        cut(7, 8, &window),
        cut(8, 9, &full),
    ];
    let finer = [
        cut(0, 1, &full),
        cut(1, 2, &window),
        cut(2, 3, &block),
        cut(3, 4, &hole),
        cut(4, 5, &hole),
        cut(5, 6, &hole),
        cut(6, 7, &block),
        cut(7, 8, &window),
        cut(8, 9, &full),
    ];
    check(&rt, rt.alloc(), &bands, &bands)?;
    check(&rt, rt.alloc(), &finer, &bands)?;
    Ok(())
}
