//! The squares round which an outline winds.

ghost use Rattle.std.specs.Prelude.{◌≡◌, ℤ, pos, not, IfOk};
ghost use Rattle.std.specs.Ordering.{int_eq};
ghost use Rattle.drc_geom.specs.Winding.{winding};
ghost use Rattle.region_form.specs.Flips.{squares};
ghost use Rattle.gds_polygon.specs.Outlines.{IsClosed, IsRightAngled};

use crate::steps::{in_order, level_steps};
use crate::windings::Windings;
use drc_geom::Pt;
use region_form::Region;
use region_sweep::sweep;
use std::alloc::{AllocError, Global};

/// The squares round which a closed right-angled outline winds, in either direction. It may touch and cross itself.
/// Only want of memory is an error.
pub fn wound_region(alloc: Global, points: &[Pt]) -> Result<Region, AllocError>
    requires closed { IsClosed points.now }
    requires right_angled { IsRightAngled points.now }
    ensures { IfOk result (λ region. (x y : ℤ) → squares region x y ≡ not (int_eq (winding points.now x y) (pos 0))) }
{
    let east = level_steps(alloc, points, true)?;
    let eastward = in_order(east);
    let west = level_steps(alloc, points, false)?;
    let westward = in_order(west);
    let region = sweep(alloc, &eastward, &westward, &Windings)?;
    Ok(region)
}
