//! SIZE.

ghost use Rattle.std.specs.Prelude.{◌≡◌, ◌↔◌, true, ◌^◌, ℤ, pos, ◌-ℤ◌, ◌≤ℤ◌, IfOk};
ghost use Rattle.region_form.specs.Flips.{squares};
ghost use Rattle.region_size.specs.Sizes.{AllNear, HasNear, LieWithin};

use crate::grow::grow;
use crate::shrink::shrink;
use region_form::Region;
use std::alloc::AllocError;

/// The region grown by d database units, or shrunk by -d where d is negative. Its squares lie within 2^40 database
/// units of the origin, and d has magnitude at most 2^24. Only want of memory is an error.
pub fn size(region: &Region, d: i64) -> Result<Region, AllocError>
    requires low { (pos 0 -ℤ pos (2 ^ 24)) ≤ℤ d }
    requires high { d ≤ℤ pos (2 ^ 24) }
    requires within { LieWithin (pos (2 ^ 40)) (squares region.now) }
    ensures grown { IfOk result (λ sized. pos 0 ≤ℤ d → (x y : ℤ)
        → (squares sized x y ≡ true) ↔ HasNear (squares region.now) d x y) }
    ensures shrunk { IfOk result (λ sized. d ≤ℤ pos 0 → (x y : ℤ)
        → (squares sized x y ≡ true) ↔ AllNear (squares region.now) (pos 0 -ℤ d) x y) }
{
    if d >= 0 {
        let grown = grow(region, d)?;
        return Ok(grown);
    }
    let shrunk = shrink(region, opposite(d))?;
    Ok(shrunk)
}

fn opposite(d: i64) -> i64
    requires { (pos 0 -ℤ pos (2 ^ 24)) ≤ℤ d }
    ensures { result ≡ pos 0 -ℤ d }
{
    -d
}
