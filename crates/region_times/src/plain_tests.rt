//! The booleans and the rectangles of small sets, against squares that are looked at one by one.

use crate::draw::Draw;
use crate::layer::Layer;
use drc_geom::Rect;
use region_bool::{and, not, or, xor};
use region_merge::merge;
use region_rects::rectangles;
use std::alloc::{AllocError, Global};
use std::test::Fail;

// One to eight rectangles between (0, 0) and (20, 20).
fn small(alloc: Global, draw: &mut Draw) -> Result<Layer, AllocError> {
    let mut layer = Layer::new(alloc);
    for _ in 0..1 + draw.below(8) {
        let (x, y) = (draw.below(14), draw.below(14));
        let (width, height) = (1 + draw.below(6), 1 + draw.below(6));
        layer.add(x, y, width, height)?;
    }
    Ok(layer)
}

// How many of the rectangles cover the square.
fn times_covered(rects: &[Rect], x: i64, y: i64) -> usize {
    rects
        .iter()
        .filter(|r| r.x0 <= x && x < r.x1 && r.y0 <= y && y < r.y1)
        .count()
}

#[test]
fn booleans_of_small_sets(rt: HostRuntime) -> Result<(), Fail> {
    let alloc = rt.alloc();
    let mut draw = Draw::new();
    for turn in 0..50u32 {
        let (first, second) = (small(alloc, &mut draw)?, small(alloc, &mut draw)?);
        let (a, b) = (merge(alloc, first.rects())?, merge(alloc, second.rects())?);
        let (both, either, first_alone, one_alone) = (
            and(&a, &b)?,
            or(&a, &b)?,
            not(&a, &b)?,
            xor(&a, &b)?,
        );
        for y in -1..21i64 {
            for x in -1..21i64 {
                let p = times_covered(first.rects(), x, y) > 0;
                let q = times_covered(second.rects(), x, y) > 0;
                assert_eq!(rt;
                    (a.covers(x, y), b.covers(x, y)),
                    (p, q),
                    "{turn} at {x} {y}"
                );
                assert_eq!(rt; both.covers(x, y), p && q, "{turn} at {x} {y}");
                assert_eq!(rt; either.covers(x, y), p || q, "{turn} at {x} {y}");
                assert_eq!(rt; first_alone.covers(x, y), p && !q, "{turn} at {x} {y}");
                assert_eq!(rt; one_alone.covers(x, y), p != q, "{turn} at {x} {y}");
            }
        }
    }
    Ok(())
}

#[test]
fn rectangles_of_small_sets(rt: HostRuntime) -> Result<(), Fail> {
    let alloc = rt.alloc();
    let mut draw = Draw::new();
    for turn in 0..50u32 {
        let layer = small(alloc, &mut draw)?;
        let region = merge(alloc, layer.rects())?;
        let rects = rectangles(alloc, &region)?;
        for y in -1..21i64 {
            for x in -1..21i64 {
                let want = if times_covered(layer.rects(), x, y) > 0 {
                    1
                } else {
                    0
                };
                assert_eq!(rt; times_covered(&rects, x, y), want, "{turn} at {x} {y}");
            }
        }
    }
    Ok(())
}
