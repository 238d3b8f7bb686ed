//! SIZE against flips that are worked out by hand, and against squares that are looked at one by one.

ghost use Rattle.std.specs.Prelude.{◌<◌, ◌^◌, pos, IsTrue, IfOk};
ghost use Rattle.std.specs.List.{AllByRecursion};
ghost use Rattle.drc_geom.specs.Squares.{IsRect};
ghost use Rattle.region_form.specs.Flips.{squares};
ghost use Rattle.region_size.specs.Sizes.{LieWithin};
ghost use Rattle.region_size.specs.Working.Widths.{LiesWithin};

use crate::size;
use drc_geom::Rect;
use region_form::{Flip, Region};
use region_merge::merge;
use std::alloc::{AllocError, Global};
use std::process::Abort;
use std::test::Fail;

const FAR: i64 = 1 << 40;

const MOST: i64 = 1 << 24;

fn rect(x0: i64, y0: i64, x1: i64, y1: i64) -> Rect {
    Rect { x0, y0, x1, y1 }
}

fn flip(y: i64, x0: i64, x1: i64) -> Flip {
    Flip { y, x0, x1 }
}

fn have_area(rects: &[Rect]) -> bool
    ensures { IsTrue result → AllByRecursion IsRect rects.now }
{
    for r in rects {
        if r.x0 >= r.x1 || r.y0 >= r.y1 {
            return false;
        }
    }
    true
}

fn are_in_reach(rects: &[Rect]) -> bool
    ensures { IsTrue result → AllByRecursion (LiesWithin (pos (2 ^ 40))) rects.now }
{
    for r in rects {
        if r.x0 < -FAR || r.y0 < -FAR || r.x1 > FAR || r.y1 > FAR {
            return false;
        }
    }
    true
}

fn union(alloc: Global, rects: &[Rect]) -> Result<Region, AllocError>
    requires area { AllByRecursion IsRect rects.now }
    requires reach { AllByRecursion (LiesWithin (pos (2 ^ 40))) rects.now }
    ensures { IfOk result (λ region. LieWithin (pos (2 ^ 40)) (squares region)) }
{
    let region = merge(alloc, rects)?;
    Ok(region)
}

// What the rectangles cover, grown or shrunk.
fn sized(rt: &impl Abort, alloc: Global, rects: &[Rect], d: i64) -> Result<Region, AllocError> {
    assert!(rt; have_area(rects));
    assert!(rt; are_in_reach(rects));
    assert!(rt; -MOST <= d && d <= MOST);
    let region = union(alloc, rects)?;
    size(&region, d)
}

/// A name, rectangles, by how much they are sized, and the flips that are wanted.
type Case<'a> = (&'a str, &'a [Rect], i64, &'a [Flip]);

fn check(rt: &impl Abort, alloc: Global, cases: &[Case]) -> Result<(), AllocError> {
    for (name, rects, d, want) in cases {
        let region = sized(rt, alloc, rects, *d)?;
        assert_eq!(rt; region.flips(), *want, "{name} by {d}");
    }
    Ok(())
}

#[test]
fn one_rectangle(rt: HostRuntime) -> Result<(), Fail> {
    let one = [rect(2, 3, 5, 7)];
    let square = [rect(0, 0, 20, 20)];
    let cases: [Case; 7] = [
        ("one", &one, 0, &[flip(3, 2, 5), flip(7, 2, 5)]),
        ("one", &one, 2, &[flip(1, 0, 7), flip(9, 0, 7)]),
        ("one", &one, -1, &[flip(4, 3, 4), flip(6, 3, 4)]),
        ("one", &one, -2, &[]),
        ("a square", &square, -5, &[flip(5, 5, 15), flip(15, 5, 15)]),
        ("none", &[], 3, &[]),
        ("none", &[], -3, &[]),
    ];
    check(&rt, rt.alloc(), &cases)?;
    Ok(())
}

#[test]
fn corners_that_touch(rt: HostRuntime) -> Result<(), Fail> {
    let corners = [rect(0, 0, 3, 3), rect(3, 3, 6, 6)];
    let cases: [Case; 3] = [
        (
            "corners",
            &corners,
            0,
            &[flip(0, 0, 3), flip(3, 0, 6), flip(6, 3, 6)],
        ),
        (
            "corners",
            &corners,
            1,
            &[
                flip(-1, -1, 4),
                flip(2, 4, 7),
                flip(4, -1, 2),
                flip(7, 2, 7),
            ],
        ),
        (
            "corners",
            &corners,
            -1,
            &[flip(1, 1, 2), flip(2, 1, 2), flip(4, 4, 5), flip(5, 4, 5)],
        ),
    ];
    check(&rt, rt.alloc(), &cases)?;
    Ok(())
}

// A notch of three columns, and a hole of three by three.
#[test]
fn a_notch_and_a_hole(rt: HostRuntime) -> Result<(), Fail> {
    let notch = [rect(0, 0, 9, 3), rect(0, 3, 3, 9), rect(6, 3, 9, 9)];
    let hole = [notch[0], notch[1], notch[2], rect(3, 6, 6, 9)];
    let whole = [flip(-2, -2, 11), flip(11, -2, 11)];
    let cases: [Case; 5] = [
        ("a notch", &notch, 2, &whole),
        (
            "a notch",
            &notch,
            1,
            &[
                flip(-1, -1, 10),
                flip(4, 4, 5),
                flip(10, -1, 4),
                flip(10, 5, 10),
            ],
        ),
        (
            "a notch",
            &notch,
            -1,
            &[flip(1, 1, 8), flip(2, 2, 7), flip(8, 1, 2), flip(8, 7, 8)],
        ),
        ("a hole", &hole, 2, &whole),
        (
            "a hole",
            &hole,
            1,
            &[
                flip(-1, -1, 10),
                flip(4, 4, 5),
                flip(5, 4, 5),
                flip(10, -1, 10),
            ],
        ),
    ];
    check(&rt, rt.alloc(), &cases)?;
    Ok(())
}

// A frame three units wide, and in it one that is two units wide.
#[test]
fn windows_inside_windows(rt: HostRuntime) -> Result<(), Fail> {
    let frames = [
        rect(0, 0, 20, 3),
        rect(0, 17, 20, 20),
        rect(0, 3, 3, 17),
        rect(17, 3, 20, 17),
        rect(6, 6, 14, 8),
        rect(6, 12, 14, 14),
        rect(6, 8, 8, 12),
        rect(12, 8, 14, 12),
    ];
    let cases: [Case; 2] = [
        (
            "frames",
            &frames,
            1,
            &[
                flip(-1, -1, 21),
                flip(4, 4, 16),
                flip(5, 5, 15),
                flip(9, 9, 11),
                flip(11, 9, 11),
                flip(15, 5, 15),
                flip(16, 4, 16),
                flip(21, -1, 21),
            ],
        ),
        (
            "frames",
            &frames,
            -1,
            &[
                flip(1, 1, 19),
                flip(2, 2, 18),
                flip(18, 2, 18),
                flip(19, 1, 19),
            ],
        ),
    ];
    check(&rt, rt.alloc(), &cases)?;
    Ok(())
}

// Both ends of the coordinates' range, moved by the greatest number.
#[test]
fn far_corners_of_the_plane(rt: HostRuntime) -> Result<(), Fail> {
    let all = [rect(-FAR, -FAR, FAR, FAR)];
    let corners = [
        rect(-FAR, -FAR, 1 - FAR, 1 - FAR),
        rect(FAR - 1, FAR - 1, FAR, FAR),
    ];
    let (out, inward) = (FAR + MOST, FAR - MOST);
    let cases: [Case; 4] = [
        (
            "all",
            &all,
            MOST,
            &[flip(-out, -out, out), flip(out, -out, out)],
        ),
        (
            "all",
            &all,
            -MOST,
            &[
                flip(-inward, -inward, inward),
                flip(inward, -inward, inward),
            ],
        ),
        (
            "corners",
            &corners,
            MOST,
            &[
                flip(-out, -out, 1 - inward),
                flip(1 - inward, -out, 1 - inward),
                flip(inward - 1, inward - 1, out),
                flip(out, inward - 1, out),
            ],
        ),
        ("corners", &corners, -1, &[]),
    ];
    check(&rt, rt.alloc(), &cases)?;
    Ok(())
}

fn is_covered(rects: &[Rect], x: i64, y: i64) -> bool {
    for r in rects {
        if r.x0 <= x && x < r.x1 && r.y0 <= y && y < r.y1 {
            return true;
        }
    }
    false
}

/// By how much squares are grown, or shrunk where that is negative, and how far the squares lie that are looked at.
#[derive(Clone, Copy)]
struct Reach {
    d: i64,
    low: i64,
    high: i64,
}

// Whether some square that is near is covered, or, where they are shrunk, whether all are.
fn is_wanted(rects: &[Rect], reach: Reach, x: i64, y: i64) -> bool {
    let grows = reach.d >= 0;
    for dy in [-4, -3, -2, -1, 0, 1, 2, 3, 4] {
        for dx in [-4, -3, -2, -1, 0, 1, 2, 3, 4] {
            let is_near = reach.low <= dx
                && dx <= reach.high
                && reach.low <= dy
                && dy <= reach.high;
            if is_near && is_covered(rects, x.saturating_add(dx), y.saturating_add(dy)) == grows {
                return grows;
            }
        }
    }
    !grows
}

fn draw(state: &mut u64, below: u32) -> u32
    requires { 0 < below }
    ensures { result < below }
{
    *state = state
        .wrapping_mul(6_364_136_223_846_793_005)
        .wrapping_add(1_442_695_040_888_963_407);
    ((*state >> 33) % below as u64) as u32
}

// One to eight rectangles between (0, 0) and (20, 20).
fn at_random(alloc: Global, seed: u64) -> Result<Vec<Rect>, AllocError> {
    let mut state = seed;
    let mut rects = Vec::new(alloc);
    for _ in 0..1 + draw(&mut state, 8) {
        let (x, y) = (draw(&mut state, 14), draw(&mut state, 14));
        let (width, height) = (1 + draw(&mut state, 6), 1 + draw(&mut state, 6));
        rects.push(rect(x as i64, y as i64, (x + width) as i64, (y + height) as i64))?;
    }
    Ok(rects)
}

fn compare(rt: &impl Abort, alloc: Global, rects: &[Rect], reach: Reach) -> Result<(), AllocError> {
    let region = sized(rt, alloc, rects, reach.d)?;
    for y in -5..25i64 {
        for x in -5..25i64 {
            let want = is_wanted(rects, reach, x, y);
            assert_eq!(rt;
                region.covers(x, y),
                want,
                "{x} {y} by {} of {rects:?}",
                reach.d
            );
        }
    }
    Ok(())
}

#[test]
fn rectangles_at_random(rt: HostRuntime) -> Result<(), Fail> {
    let reaches = [(-3, -3, 3), (-1, -1, 1), (0, 0, 0), (1, -1, 1), (4, -4, 4)];
    for seed in 0..30u64 {
        let rects = at_random(rt.alloc(), seed)?;
        for (d, low, high) in reaches {
            compare(&rt, rt.alloc(), &rects, Reach { d, low, high })?;
        }
    }
    Ok(())
}
