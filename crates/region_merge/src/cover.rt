//! The union of rectangles.

ghost use Rattle.std.specs.Prelude.{◌≡◌, ℤ, IfOk};
ghost use Rattle.std.specs.List.{AllByRecursion};
ghost use Rattle.drc_geom.specs.Squares.{IsRect, covered};
ghost use Rattle.region_form.specs.Flips.{squares};

use crate::overlaps::Overlaps;
use crate::sides::{in_order, lower_sides, upper_sides};
use drc_geom::Rect;
use region_form::Region;
use region_sweep::sweep;
use std::alloc::{AllocError, Global};

/// The squares that some rectangle covers. The rectangles may stand in any order, touch, overlap and repeat. Only want
/// of memory is an error.
pub fn merge(alloc: Global, rects: &[Rect]) -> Result<Region, AllocError>
    requires { AllByRecursion IsRect rects.now }
    ensures { IfOk result (λ region. (x y : ℤ) → squares region x y ≡ covered rects.now x y) }
{
    let lower = lower_sides(alloc, rects)?;
    let begun = in_order(lower);
    let upper = upper_sides(alloc, rects)?;
    let ended = in_order(upper);
    let region = sweep(alloc, &begun, &ended, &Overlaps)?;
    Ok(region)
}
