ghost use Rattle.std.specs.Prelude.{IsTrue};
ghost use Rattle.std.specs.List.{AllByRecursion};
ghost use Rattle.drc_geom.specs.Squares.{IsRect};

use super::merge;
use drc_geom::Rect;
use region_form::{Flip, Region};
use std::alloc::{AllocError, Global};
use std::process::Abort;
use std::test::Fail;

fn rect(x0: i64, y0: i64, x1: i64, y1: i64) -> Rect {
    Rect { x0, y0, x1, y1 }
}

fn have_area(rects: &[Rect]) -> bool
    ensures { IsTrue result → AllByRecursion IsRect rects.now }
{
    for r in rects {
        if r.x0 >= r.x1 || r.y0 >= r.y1 {
            return false;
        }
    }
    true
}

fn union(rt: &impl Abort, alloc: Global, rects: &[Rect]) -> Result<Region, AllocError> {
    assert!(rt; have_area(rects));
    merge(alloc, rects)
}

fn is_covered(rects: &[Rect], x: i64, y: i64) -> bool {
    for r in rects {
        if r.x0 <= x && x < r.x1 && r.y0 <= y && y < r.y1 {
            return true;
        }
    }
    false
}

fn has_square(flips: &[Flip], x: i64, y: i64) -> bool {
    let mut inside = false;
    for flip in flips {
        if flip.y <= y && flip.x0 <= x && x < flip.x1 {
            inside = !inside;
        }
    }
    inside
}

// Compares each square from (-2, -2) to (17, 17), and counts the flips.
fn check(
    rt: &impl Abort,
    alloc: Global,
    name: &str,
    rects: &[Rect],
    flips: usize,
) -> Result<(), AllocError> {
    let region = union(rt, alloc, rects)?;
    for y in -2..18 {
        for x in -2..18 {
            let want = is_covered(rects, x, y);
            assert_eq!(rt; has_square(region.flips(), x, y), want, "{name} at {x} {y}");
        }
    }
    assert_eq!(rt; region.flips().len(), flips, "{name}");
    Ok(())
}

#[test]
fn rectangles_that_meet(rt: HostRuntime) -> Result<(), Fail> {
    let table: [(&str, &[Rect], usize); 9] = [
        ("none", &[], 0),
        ("one", &[rect(1, 2, 5, 4)], 2),
        ("twice the same", &[rect(1, 2, 5, 4), rect(1, 2, 5, 4)], 2),
        ("side by side", &[rect(4, 0, 9, 3), rect(0, 0, 4, 3)], 2),
        ("one on the other", &[rect(0, 3, 4, 9), rect(0, 0, 4, 3)], 2),
        (
            "nested",
            &[rect(4, 4, 6, 6), rect(0, 0, 10, 10), rect(2, 2, 8, 8)],
            2,
        ),
        ("corner to corner", &[rect(0, 0, 3, 3), rect(3, 3, 6, 6)], 3),
        ("a cross", &[rect(0, 4, 12, 8), rect(4, 0, 8, 12)], 6),
        (
            "stairs",
            &[rect(2, 2, 8, 4), rect(0, 0, 4, 3), rect(6, 1, 9, 7)],
            6,
        ),
    ];
    for (name, rects, flips) in table {
        check(&rt, rt.alloc(), name, rects, flips)?;
    }
    Ok(())
}

#[test]
fn windows_inside_windows(rt: HostRuntime) -> Result<(), Fail> {
    let frames = [
        rect(0, 0, 12, 2),
        rect(0, 10, 12, 12),
        rect(0, 0, 2, 12),
        rect(10, 0, 12, 12),
        rect(4, 4, 8, 5),
        rect(4, 7, 8, 8),
        rect(4, 4, 5, 8),
        rect(7, 4, 8, 8),
    ];
    check(&rt, rt.alloc(), "frames", &frames, 8)?;
    Ok(())
}

#[test]
fn checkerboard(rt: HostRuntime) -> Result<(), Fail> {
    let mut board = Vec::new(rt.alloc());
    for place in 0..256u32 {
        let (column, line) = (place % 16, place / 16);
        if (column + line) % 2 == 0 {
            let (x, y) = (i64::from(column), i64::from(line));
            board.push(rect(x, y, x + 1, y + 1))?;
        }
    }
    // eight on the lowest and the highest line, and one as wide as the board on each line between
    check(&rt, rt.alloc(), "board", &board, 31)?;
    Ok(())
}

#[test]
fn many_equal_rectangles(rt: HostRuntime) -> Result<(), Fail> {
    let mut equal = Vec::new(rt.alloc());
    for _ in 0..200 {
        equal.push(rect(3, 1, 9, 7))?;
    }
    check(&rt, rt.alloc(), "equal", &equal, 2)?;
    Ok(())
}

#[test]
fn far_corners_of_the_plane(rt: HostRuntime) -> Result<(), Fail> {
    const FAR: i64 = 1 << 30;
    let rects = [
        rect(FAR - 1, FAR - 1, FAR, FAR),
        rect(-FAR, -FAR, FAR, 1 - FAR),
        rect(-FAR, -FAR, 1 - FAR, FAR),
    ];
    let region = union(&rt, rt.alloc(), &rects)?;
    let flip = |y, x0, x1| Flip { y, x0, x1 };
    let want = [
        flip(-FAR, -FAR, FAR),
        flip(1 - FAR, 1 - FAR, FAR),
        flip(FAR - 1, FAR - 1, FAR),
        flip(FAR, -FAR, 1 - FAR),
        flip(FAR, FAR - 1, FAR),
    ];
    assert_eq!(&rt; region.flips(), want.as_slice());
    Ok(())
}

#[test]
fn tall_column_from_the_top_down(rt: HostRuntime) -> Result<(), Fail> {
    let mut column = Vec::new(rt.alloc());
    for place in 0..524_288u32 {
        let y = 2 * i64::from(524_287 - place);
        column.push(rect(0, y, 1, y + 1))?;
    }
    let region = union(&rt, rt.alloc(), &column)?;
    let mut want = Vec::new(rt.alloc());
    for line in 0..1_048_576u32 {
        want.push(Flip {
            y: i64::from(line),
            x0: 0,
            x1: 1,
        })?;
    }
    assert_eq!(&rt; region.flips(), want.as_slice());
    Ok(())
}
