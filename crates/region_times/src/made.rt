//! The operations.

ghost use Rattle.std.specs.Prelude.{◌≡◌, ◌^◌, pos, ◌-ℤ◌, ◌≤ℤ◌, IfOk};
ghost use Rattle.region_form.specs.Flips.{squares};
ghost use Rattle.region_size.specs.Sizes.{LieWithin};
ghost use Rattle.region_times.specs.Made.{IsMade};

use crate::operation::Operation;
use crate::outcome::Outcome;
use edge_of_region::boundary;
use region_bool::{and, not, or, xor};
use region_form::Region;
use region_rects::rectangles;
use region_size::size;
use std::alloc::AllocError;

/// By how many database units SIZE moves a side at most.
pub const FARTHEST: i64 = 1 << 24;

/// What comes of the operation. Only want of memory is an error.
pub fn made(
    operation: Operation,
    by: i64,
    first: &Region,
    second: &Region,
) -> Result<Outcome, AllocError>
    requires low { (pos 0 -ℤ pos (2 ^ 24)) ≤ℤ by }
    requires high { by ≤ℤ pos (2 ^ 24) }
    requires within { LieWithin (pos (2 ^ 40)) (squares first.now) }
    ensures { IfOk result (λ outcome. IsMade operation by first.now second.now outcome) }
{
    match operation {
        Operation::And => Ok(Outcome::Squares(and(first, second)?)),
        Operation::Or => Ok(Outcome::Squares(or(first, second)?)),
        Operation::Not => Ok(Outcome::Squares(not(first, second)?)),
        Operation::Xor => Ok(Outcome::Squares(xor(first, second)?)),
        Operation::Size => Ok(Outcome::Squares(size(first, by)?)),
        Operation::Rectangles => Ok(Outcome::Rects(rectangles(first.alloc(), first)?)),
        Operation::Boundary => Ok(Outcome::Units(boundary(first.alloc(), first)?)),
    }
}
