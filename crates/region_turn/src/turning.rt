//! The flips of a region turned over: x and y change places.
//!
//! ```text
//!    y=2  +--+                      flips 0 to 2 on line 0, 1 to 2 on line 1, 0 to 1 on line 2: their ends are
//!         |  |                      corners, and from the first corner of a line of x to the second, and from the
//!    y=1  |  +--+                   third to the fourth, the squares on both sides of that line differ. So the flips
//!         |     |                   of the region turned over are 0 to 2 on line 0, 1 to 2 on line 1, 0 to 1 on line 2.
//!    y=0  +-----+
//!        x=0 1  2
//! ```

ghost use Rattle.std.specs.Prelude.{◌≡◌, [], ◌∷◌, ◌++◌, ℤ, IfOk, OnOk};
ghost use Rattle.std.specs.List.Sorted.{IsPermutation};
ghost use Rattle.region_form.specs.Flips.{AreSorted, IsRegion, squares};
ghost use Rattle.region_turn.specs.Working.Corners.{Ascend, corners_of, flips_between};

use crate::corner::Corner;
use region_form::{Flip, Region};
use std::alloc::{AllocError, Global};

/// The flips whose squares are those of the region with x and y in each other's place, by line and then column.
/// Only want of memory is an error.
pub fn turn_over(alloc: Global, region: &Region) -> Result<Vec<Flip>, AllocError>
    ensures sorted { IfOk result (λ flips. AreSorted flips.items) }
    ensures squares { IfOk result (λ flips. (x y : ℤ) → squares flips.items y x ≡ squares region.now x y) }
{
    let flips = region.flips();
    let corners = corners(alloc, flips)?;
    let sorted = in_order(corners);
    let turned = flips_between(alloc, &sorted)?;
    Ok(turned)
}

// The ends of flips.
fn corners(alloc: Global, flips: &[Flip]) -> Result<Vec<Corner>, AllocError>
    ensures { IfOk result (λ corners. corners.items ≡ corners_of flips.now) }
{
    let mut corners = Vec::with_capacity(alloc, flips.len())?;
    for flip in flips {
        push_corners(&mut corners, *flip)?;
    }
    Ok(corners)
}

fn push_corners(corners: &mut Vec<Corner>, flip: Flip) -> Result<(), AllocError>
    ensures { OnOk result (corners.new.items ≡ corners.old.items ++ corners_of (flip ∷ [])) }
{
    let low = Corner {
        line: flip.x0,
        row: flip.y,
    };
    let high = Corner {
        line: flip.x1,
        row: flip.y,
    };
    corners.extend_from_slice(&[low, high])
}

// The same corners, by line and then row.
fn in_order(mut corners: Vec<Corner>) -> Vec<Corner>
    ensures corners { IsPermutation corners.items result.items }
    ensures ascend { Ascend result.items }
{
    corners.sort_unstable_by_key(|corner| (corner.line, corner.row));
    corners
}

// The flips from the first corner to the second, from the third to the fourth, and so on.
#[tactic(auto, using(crate::proofs::Corners::two_more, crate::proofs::Corners::too_few))]
fn flips_between(alloc: Global, corners: &[Corner]) -> Result<Vec<Flip>, AllocError>
    ensures { IfOk result (λ flips. flips.items ≡ flips_between corners.now) }
{
    let mut flips = Vec::with_capacity(alloc, corners.len() / 2)?;
    let mut left = corners;
    while let [low, high, behind @ ..] = left {
        push_between(&mut flips, *low, *high)?;
        left = behind;
    }
    Ok(flips)
}

// Two corners in one place leave nothing between them.
fn push_between(flips: &mut Vec<Flip>, low: Corner, high: Corner) -> Result<(), AllocError>
    ensures { OnOk result (flips.new.items ≡ flips.old.items ++ flips_between (low ∷ high ∷ [])) }
{
    if low.row < high.row {
        flips.push(Flip {
            y: low.line,
            x0: low.row,
            x1: high.row,
        })?;
    }
    Ok(())
}
