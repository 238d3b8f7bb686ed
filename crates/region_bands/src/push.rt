//! A region that grows upwards by bands.

ghost use Rattle.std.specs.Prelude.{◌≡◌, ◌≤◌, ◌++◌, ◌||◌, length, take, ℤ, pos, ◌+ℤ◌, ◌<ℤ◌, IfOk, OnOk, OnErr};
ghost use Rattle.interval_row.specs.Rows.{IsRow};
ghost use Rattle.region_form.specs.Flips.{AreBelow, squares};
ghost use Rattle.region_form.specs.LineFlips.{flips_on};
ghost use Rattle.region_bands.specs.Bands.{squares_of_band};
ghost use Rattle.region_bands.specs.Working.LastLine.{HasBand};

use crate::band::Band;
use crate::last_line::{line_start, row_of};
use interval_row::Row;
use region_form::{Flip, Region, flips_on};
use std::alloc::{AllocError, Global};

/// Adds a band at or above all lines of the region. The numbers are database units.
/// Only want of memory is an error, and then nothing changes.
pub fn push_band(region: &mut Region, band: Band) -> Result<(), AllocError>
    requires high { band.y0 <ℤ band.y1 }
    requires above { AreBelow (band.y0 +ℤ pos 1) region.old }
    ensures ok { OnOk result
        ((x y : ℤ) → squares region.new x y ≡ (squares region.old x y || squares_of_band band x y)) }
    ensures lines { OnOk result (AreBelow (band.y1 +ℤ pos 1) region.new) }
    ensures err { OnErr result (region.new ≡ region.old) }
{
    let (start, end) = change_by(region, &band)?;
    region.replace_end(start, &end)?;
    Ok(())
}

// Where the flips on the band's lower line begin, and the flips that take their place. The old ones undo the row that
// stands below the line.
fn change_by(region: &Region, band: &Band) -> Result<(usize, Vec<Flip>), AllocError>
    requires high { band.now.y0 <ℤ band.now.y1 }
    requires above { AreBelow (band.now.y0 +ℤ pos 1) region.now }
    ensures start { IfOk result (λ change. change.0 ≤ length region.now) }
    ensures with_band { IfOk result
        (λ change. HasBand region.now band.now (take change.0 region.now ++ change.1.items)) }
{
    let start = line_start(region.flips(), band.y0);
    let below = row_of(region.alloc(), &region.flips()[start..])?;
    let change = below.xor(&band.row)?;
    let end = flips_of(region.alloc(), band.y0, &change, band.y1, &band.row)?;
    Ok((start, end))
}

// The flips of two rows on two lines.
fn flips_of(
    alloc: Global,
    y0: i64,
    lower: &Row,
    y1: i64,
    upper: &Row,
) -> Result<Vec<Flip>, AllocError>
    ensures lower { IfOk result (λ _. IsRow lower.now) }
    ensures upper { IfOk result (λ _. IsRow upper.now) }
    ensures flips { IfOk result
        (λ flips. flips.items ≡ flips_on y0 lower.now ++ flips_on y1 upper.now) }
{
    let mut flips = flips_on(alloc, y0, lower)?;
    flips.extend_from_slice(&flips_on(alloc, y1, upper)?)?;
    Ok(flips)
}
