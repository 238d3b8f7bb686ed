//! Growing, along x and then along y.

ghost use Rattle.std.specs.Prelude.{◌≡◌, ◌↔◌, true, ◌^◌, ℤ, pos, ◌≤ℤ◌, IfOk};
ghost use Rattle.region_form.specs.Flips.{squares};
ghost use Rattle.region_size.specs.Sizes.{HasNear, LieWithin};
ghost use Rattle.region_size.specs.Working.Widths.{HasNearBy};

use crate::widen::widen;
use region_form::Region;
use region_merge::merge;
use region_rects::rectangles;
use std::alloc::AllocError;

/// The squares that have one of the region within d columns and d rows.
pub(crate) fn grow(region: &Region, d: i64) -> Result<Region, AllocError>
    requires low { pos 0 ≤ℤ d }
    requires high { d ≤ℤ pos (2 ^ 24) }
    requires within { LieWithin (pos (2 ^ 41)) (squares region.now) }
    ensures { IfOk result (λ grown. (x y : ℤ)
        → (squares grown x y ≡ true) ↔ HasNear (squares region.now) d x y) }
{
    let wider = grow_by(region, d, 0)?;
    let grown = grow_by(&wider, 0, d)?;
    Ok(grown)
}

// The squares that have one of the region within dx columns and dy rows.
fn grow_by(region: &Region, dx: i64, dy: i64) -> Result<Region, AllocError>
    requires x_low { pos 0 ≤ℤ dx }
    requires x_high { dx ≤ℤ pos (2 ^ 24) }
    requires y_low { pos 0 ≤ℤ dy }
    requires y_high { dy ≤ℤ pos (2 ^ 24) }
    requires within { LieWithin (pos (2 ^ 42)) (squares region.now) }
    ensures { IfOk result (λ grown. (x y : ℤ)
        → (squares grown x y ≡ true) ↔ HasNearBy (squares region.now) dx dy x y) }
{
    let alloc = region.alloc();
    let rects = rectangles(alloc, region)?;
    let wider = widen(alloc, &rects, dx, dy)?;
    let grown = merge(alloc, &wider)?;
    Ok(grown)
}
