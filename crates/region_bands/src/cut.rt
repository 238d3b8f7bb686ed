//! The bands of a region.

ghost use Rattle.std.specs.Prelude.{◌≡◌, ℤ, IfOk, OnOk};
ghost use Rattle.interval_row.specs.Rows.{IsRow};
ghost use Rattle.region_form.specs.Flips.{squares};
ghost use Rattle.region_bands.specs.Bands.{AreBands, squares_of_bands};
ghost use Rattle.region_bands.specs.Working.Rise.{with_band};

use crate::band::Band;
use interval_row::Row;
use region_form::{Climb, Region};
use std::alloc::AllocError;

/// The region cut at its lines into bands, from the lowest upwards. Equal regions have equal bands.
/// The numbers are database units. Only want of memory is an error.
pub fn bands(region: &Region) -> Result<Vec<Band>, AllocError>
    ensures form { IfOk result (λ bands. AreBands bands.items) }
    ensures squares { IfOk result
        (λ bands. (x y : ℤ) → squares_of_bands bands.items x y ≡ squares region.now x y) }
{
    let mut bands = Vec::new(region.alloc());
    let mut climb = Climb::new(region.alloc(), region);
    // Below the lowest line stands the empty row, so that no band begins here.
    let mut bottom = i64::MIN;
    while let Some(line) = climb.next_line() {
        let row = climb.pass(line)?;
        add_band(&mut bands, bottom, line, row)?;
        bottom = line;
    }
    Ok(bands)
}

// Adds the row from line y0 to line y1 if it has a place.
fn add_band(bands: &mut Vec<Band>, y0: i64, y1: i64, row: Row) -> Result<(), AllocError>
    ensures row { IsRow row }
    ensures bands { OnOk result (bands.new.items ≡ with_band bands.old.items y0 y1 row) }
{
    if !row.list().is_empty() {
        bands.push(Band { y0, y1, row })?;
    }
    Ok(())
}
