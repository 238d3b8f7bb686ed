//! Shrinking: away goes what is near to a square outside.

ghost use Rattle.std.specs.Prelude.{◌≡◌, ◌↔◌, true, false, ◌||◌, ◌^◌, ℤ, pos, ◌-ℤ◌, ◌≤ℤ◌, IfOk};
ghost use Rattle.drc_geom.specs.Squares.{squares_of};
ghost use Rattle.region_form.specs.Flips.{squares};
ghost use Rattle.region_size.specs.Sizes.{AllNear, LieWithin};
ghost use Rattle.region_size.specs.Working.Widths.{frame};

use crate::grow::grow;
use drc_geom::Rect;
use region_bool::{not, xor};
use region_form::Region;
use region_merge::merge;
use std::alloc::{AllocError, Global};

// No square that is shrunk, and none near to one, lies further away.
const FAR: i64 = 1 << 41;

/// The squares all of whose squares within d columns and d rows are in the region.
pub(crate) fn shrink(region: &Region, d: i64) -> Result<Region, AllocError>
    requires low { pos 0 ≤ℤ d }
    requires high { d ≤ℤ pos (2 ^ 24) }
    requires within { LieWithin (pos (2 ^ 40)) (squares region.now) }
    ensures { IfOk result (λ shrunk. (x y : ℤ)
        → (squares shrunk x y ≡ true) ↔ AllNear (squares region.now) d x y) }
{
    // The region lies in the frame, so exactly one of both is what is outside.
    let all = whole(region.alloc())?;
    let outside = xor(&all, region)?;
    let near = grow(&outside, d)?;
    let shrunk = not(region, &near)?;
    Ok(shrunk)
}

// All squares that are looked at.
fn whole(alloc: Global) -> Result<Region, AllocError>
    ensures { IfOk result (λ all. (x y : ℤ) → squares all x y ≡ (squares_of frame x y || false)) }
{
    merge(
        alloc,
        &[Rect {
            x0: -FAR,
            y0: -FAR,
            x1: FAR,
            y1: FAR,
        }],
    )
}
