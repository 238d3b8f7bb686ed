ghost use Rattle.std.specs.Prelude.{All, IsTrue};
ghost use Rattle.gds_path.specs.Paths.{IsDrawable, IsMeasured, IsMeasuredPoint};

use super::*;
use drc_geom::{Pt, Rect};
use std::alloc::{AllocError, Global};
use std::process::Abort;
use std::test::Fail;

const FAR: i64 = 1 << 60;

const EDGE: i64 = 1 << 30;

fn is_near(z: i64) -> bool
    ensures { IsTrue result → IsMeasured z }
{
    -FAR <= z && z <= FAR
}

fn are_near(points: &[Pt]) -> bool
    ensures { IsTrue result → All IsMeasuredPoint points.now }
{
    for p in points {
        if p.x < -FAR || p.y < -FAR || p.x > FAR || p.y > FAR {
            return false;
        }
    }
    true
}

fn is_drawable(stroke: &Stroke) -> bool
    ensures { IsTrue result → IsDrawable stroke.now }
{
    is_near(stroke.half_width) && is_near(stroke.before_first()) && is_near(stroke.behind_last())
}

/// Points, half a width, ends, and the rectangles that are wanted: none where the path is out of range.
type Case = (
    &'static [(i64, i64)],
    i64,
    Ends,
    Option<&'static [(i64, i64, i64, i64)]>,
);

fn points_of(alloc: Global, places: &[(i64, i64)]) -> Result<Vec<Pt>, AllocError> {
    let mut points = Vec::new(alloc);
    for (x, y) in places {
        points.push(Pt { x: *x, y: *y })?;
    }
    Ok(points)
}

fn is_wanted(out: &[Rect], wanted: &[(i64, i64, i64, i64)]) -> bool {
    out.iter()
        .map(|r| (r.x0, r.y0, r.x1, r.y1))
        .eq(wanted.iter().copied())
}

fn check(rt: &impl Abort, alloc: Global, case: &Case) -> Result<(), AllocError> {
    let (places, half_width, ends, wanted) = case;
    let points = points_of(alloc, places)?;
    let stroke = Stroke {
        half_width: *half_width,
        ends: *ends,
    };
    assert!(rt; are_near(&points) && is_drawable(&stroke));
    let mut out = Vec::new(alloc);
    out.push(Rect {
        x0: 0,
        y0: 0,
        x1: 1,
        y1: 1,
    })?;
    let is_drawn = path_rects(&points, &stroke, &mut out).is_ok();
    assert_eq!(rt; is_drawn, wanted.is_some(), "{places:?}");
    assert!(rt; is_wanted(&out[1..], wanted.unwrap_or(&[])), "{places:?}");
    Ok(())
}

#[test]
fn paths(rt: HostRuntime) -> Result<(), Fail> {
    let cases: [Case; 13] = [
        // A corner, with ends that are flush, and that go half a width beyond.
        (
            &[(1, 1), (1, 4), (5, 4)],
            1,
            Ends::Flush,
            Some(&[(0, 1, 2, 5), (0, 3, 5, 5)]),
        ),
        (
            &[(1, 1), (1, 4), (5, 4)],
            1,
            Ends::Square,
            Some(&[(0, 0, 2, 5), (0, 3, 6, 5)]),
        ),
        // Down and to the left.
        (
            &[(5, 4), (5, 1), (1, 1)],
            1,
            Ends::Flush,
            Some(&[(4, 0, 6, 4), (1, 0, 6, 2)]),
        ),
        // Longer at the beginning, shorter at the end; and the other way round.
        (
            &[(2, 2), (6, 2)],
            1,
            Ends::Extended(Extension { begin: 3, end: -1 }),
            Some(&[(-1, 1, 5, 3)]),
        ),
        (
            &[(6, 2), (2, 2)],
            1,
            Ends::Extended(Extension { begin: 3, end: -1 }),
            Some(&[(3, 1, 9, 3)]),
        ),
        // Points that stand twice, and one that is passed straight on.
        (
            &[(0, 0), (0, 0), (2, 0), (5, 0), (5, 0)],
            1,
            Ends::Flush,
            Some(&[(0, -1, 5, 1)]),
        ),
        // Shortened beyond a point that is passed straight on.
        (
            &[(0, 0), (2, 0), (5, 0)],
            1,
            Ends::Extended(Extension { begin: -3, end: 0 }),
            Some(&[(3, -1, 5, 1)]),
        ),
        // There and back: the turning point is a corner.
        (
            &[(0, 0), (6, 0), (2, 0)],
            1,
            Ends::Flush,
            Some(&[(0, -1, 7, 1), (2, -1, 7, 1)]),
        ),
        // Nothing is left, no width, no segment.
        (
            &[(0, 0), (2, 0)],
            1,
            Ends::Extended(Extension { begin: -1, end: -1 }),
            Some(&[]),
        ),
        (&[(0, 0), (2, 0), (2, 2)], 0, Ends::Square, Some(&[])),
        (&[(1, 1), (1, 1)], 1, Ends::Square, Some(&[])),
        // At the edge, and beyond.
        (
            &[(0, 0), (EDGE, 0)],
            1,
            Ends::Flush,
            Some(&[(0, -1, EDGE, 1)]),
        ),
        (&[(0, 0), (EDGE, 0), (EDGE, 8)], 1, Ends::Flush, None),
    ];
    for case in &cases {
        check(&rt, rt.alloc(), case)?;
    }
    Ok(())
}
