//! The boundary of a region.

ghost use Rattle.std.specs.Prelude.{◌≡◌, ℤ, IfOk};
ghost use Rattle.drc_geom.specs.Runs.{units_of};
ghost use Rattle.drc_geom.specs.declared.unit.Side.{Side};
ghost use Rattle.drc_geom.specs.Units.{boundary};
ghost use Rattle.region_form.specs.Flips.{squares};

use crate::downwards::sides;
use edge_form::EdgeSet;
use region_form::Region;
use std::alloc::{AllocError, Global};

/// The units whose square is in the region and whose outside square isn't. Only want of memory is an error.
pub fn boundary(alloc: Global, region: &Region) -> Result<EdgeSet, AllocError>
    ensures { IfOk result (λ edges. (x y : ℤ) → (side : Side) → units_of edges x y side ≡ boundary (squares region.now) x y side) }
{
    let runs = sides(alloc, region.flips())?;
    Ok(EdgeSet::of_whole(runs))
}
