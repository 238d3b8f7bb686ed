ghost use Rattle.std.specs.Prelude.{◌≡◌, ℤ, IfOk};
ghost use Rattle.region_form.specs.Flips.{squares};
ghost use Rattle.region_bool.specs.Working.Tables.{holds};

use crate::operation::Operation;
use region_form::Region;
use region_sweep::sweep;
use std::alloc::AllocError;

/// The squares that an operation keeps.
pub(crate) fn combine(
    first: &Region,
    second: &Region,
    operation: Operation,
) -> Result<Region, AllocError>
    ensures { IfOk result (λ region. (x y : ℤ)
        → squares region x y ≡ holds operation (squares first.now x y) (squares second.now x y)) }
{
    let first_flips = first.flips();
    let second_flips = second.flips();
    let region = sweep(first.alloc(), first_flips, second_flips, &operation)?;
    Ok(region)
}
