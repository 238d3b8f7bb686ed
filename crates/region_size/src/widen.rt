//! Rectangles made wider and higher.

ghost use Rattle.std.specs.Prelude.{◌≡◌, ◌^◌, pos, ◌+ℤ◌, ◌-ℤ◌, ◌≤ℤ◌, map, IfOk};
ghost use Rattle.std.specs.List.{AllByRecursion};
ghost use Rattle.region_size.specs.Working.Widths.{LiesWithin, widened};

use drc_geom::Rect;
use std::alloc::{AllocError, Global};

/// Each rectangle, made wider by dx and higher by dy on either side.
pub(crate) fn widen(
    alloc: Global,
    rects: &[Rect],
    dx: i64,
    dy: i64,
) -> Result<Vec<Rect>, AllocError>
    requires x_low { pos 0 ≤ℤ dx }
    requires x_high { dx ≤ℤ pos (2 ^ 24) }
    requires y_low { pos 0 ≤ℤ dy }
    requires y_high { dy ≤ℤ pos (2 ^ 24) }
    requires within { AllByRecursion (LiesWithin (pos (2 ^ 42))) rects.now }
    ensures { IfOk result (λ wider. wider.items ≡ map (widened dx dy) rects.now) }
{
    let mut wider = Vec::with_capacity(alloc, rects.len())?;
    for rect in rects {
        wider.push(widened(*rect, dx, dy))?;
    }
    Ok(wider)
}

fn widened(rect: Rect, dx: i64, dy: i64) -> Rect
    requires x_low { pos 0 ≤ℤ dx }
    requires x_high { dx ≤ℤ pos (2 ^ 24) }
    requires y_low { pos 0 ≤ℤ dy }
    requires y_high { dy ≤ℤ pos (2 ^ 24) }
    requires within { LiesWithin (pos (2 ^ 42)) rect }
    ensures { result ≡ widened dx dy rect }
{
    Rect {
        x0: lower(rect.x0, dx),
        y0: lower(rect.y0, dy),
        x1: higher(rect.x1, dx),
        y1: higher(rect.y1, dy),
    }
}

fn lower(place: i64, d: i64) -> i64
    requires place { (pos 0 -ℤ pos (2 ^ 42)) ≤ℤ place }
    requires low { pos 0 ≤ℤ d }
    requires high { d ≤ℤ pos (2 ^ 24) }
    ensures { result ≡ place -ℤ d }
{
    place - d
}

fn higher(place: i64, d: i64) -> i64
    requires place { place ≤ℤ pos (2 ^ 42) }
    requires low { pos 0 ≤ℤ d }
    requires high { d ≤ℤ pos (2 ^ 24) }
    ensures { result ≡ place +ℤ d }
{
    place + d
}
