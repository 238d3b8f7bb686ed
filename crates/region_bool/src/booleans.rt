//! AND, OR, NOT and XOR.

ghost use Rattle.std.specs.Prelude.{◌≡◌, ◌&&◌, ◌||◌, not as isnt, ℤ, IfOk};
ghost use Rattle.list_facts.specs.EitherOr.{exactly_one};
ghost use Rattle.region_form.specs.Flips.{squares};

use crate::both::flips_of_one;
use crate::combine::combine;
use crate::operation::Operation;
use region_form::Region;
use std::alloc::AllocError;

/// The squares of both regions. Only want of memory is an error.
pub fn and(first: &Region, second: &Region) -> Result<Region, AllocError>
    ensures { IfOk result (λ region. (x y : ℤ)
        → squares region x y ≡ (squares first.now x y && squares second.now x y)) }
{
    combine(first, second, Operation::And)
}

/// The squares of either region. Only want of memory is an error.
pub fn or(first: &Region, second: &Region) -> Result<Region, AllocError>
    ensures { IfOk result (λ region. (x y : ℤ)
        → squares region x y ≡ (squares first.now x y || squares second.now x y)) }
{
    combine(first, second, Operation::Or)
}

/// The squares of the first region that aren't in the second. Only want of memory is an error.
pub fn not(first: &Region, second: &Region) -> Result<Region, AllocError>
    ensures { IfOk result (λ region. (x y : ℤ)
        → squares region x y ≡ (squares first.now x y && isnt (squares second.now x y))) }
{
    combine(first, second, Operation::Not)
}

/// The squares of exactly one of the regions. Only want of memory is an error.
pub fn xor(first: &Region, second: &Region) -> Result<Region, AllocError>
    ensures { IfOk result (λ region. (x y : ℤ)
        → squares region x y ≡ exactly_one (squares first.now x y) (squares second.now x y)) }
{
    let flips = flips_of_one(first.alloc(), first.flips(), second.flips())?;
    let mut region = Region::new(first.alloc());
    region.replace_end(0, &flips)?;
    Ok(region)
}
