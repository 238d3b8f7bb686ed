//! The sides at which rectangles begin and end, from the lowest line up.

ghost use Rattle.std.specs.Prelude.{◌≡◌, ◌<◌, ◌^◌, length, IfOk, OnOk};
ghost use Rattle.std.specs.List.Sorted.{IsPermutation};
ghost use Rattle.region_sweep.specs.Counts.{Rise};
ghost use Rattle.region_merge.specs.Working.Sides.{lower_sides, upper_sides};

use drc_geom::Rect;
use region_form::Flip;
use std::alloc::{AllocError, Global};

/// The lower sides, where the rectangles begin.
pub(crate) fn lower_sides(alloc: Global, rects: &[Rect]) -> Result<Vec<Flip>, AllocError>
    ensures sides { IfOk result (λ sides. sides.items ≡ lower_sides rects.now) }
    ensures bound { OnOk result (length rects.now < 2 ^ 64) }
{
    let mut sides = Vec::with_capacity(alloc, rects.len())?;
    for rect in rects {
        sides.push(lower_side(rect))?;
    }
    Ok(sides)
}

/// The upper sides, where the rectangles end.
pub(crate) fn upper_sides(alloc: Global, rects: &[Rect]) -> Result<Vec<Flip>, AllocError>
    ensures { IfOk result (λ sides. sides.items ≡ upper_sides rects.now) }
{
    let mut sides = Vec::with_capacity(alloc, rects.len())?;
    for rect in rects {
        sides.push(upper_side(rect))?;
    }
    Ok(sides)
}

/// The same sides, by line and then column.
pub(crate) fn in_order(mut sides: Vec<Flip>) -> Vec<Flip>
    ensures sides { IsPermutation sides.items result.items }
    ensures rise { Rise result.items }
{
    sides.sort_unstable_by_key(|side| (side.y, side.x0));
    sides
}

fn lower_side(rect: &Rect) -> Flip
    ensures { result ≡ record { y = rect.now.y0; x0 = rect.now.x0; x1 = rect.now.x1 } }
{
    Flip {
        y: rect.y0,
        x0: rect.x0,
        x1: rect.x1,
    }
}

fn upper_side(rect: &Rect) -> Flip
    ensures { result ≡ record { y = rect.now.y1; x0 = rect.now.x0; x1 = rect.now.x1 } }
{
    Flip {
        y: rect.y1,
        x0: rect.x0,
        x1: rect.x1,
    }
}
