//! The flips on the last line of a region.

ghost use Rattle.std.specs.Prelude.{◌≡◌, ◌≤◌, length, take, drop, pos, ◌+ℤ◌, IfOk};
ghost use Rattle.interval_row.specs.Rows.{IsRow};
ghost use Rattle.region_form.specs.Flips.{AreSorted, AreBelow};
ghost use Rattle.region_bands.specs.Working.LastLine.{AreOn, spans_of};

use interval_row::Row;
use region_form::Flip;
use std::alloc::{AllocError, Global};

/// Where the flips on the line begin, above which there is none. They are the last ones, so that the search is from
/// the end.
pub fn line_start(flips: &[Flip], line: i64) -> usize
    requires sorted { AreSorted flips.now }
    requires last { AreBelow (line +ℤ pos 1) flips.now }
    ensures bound { result ≤ length flips.now }
    ensures below { AreBelow line (take result flips.now) }
    ensures on { AreOn line (drop result flips.now) }
{
    let mut start = flips.len();
    while start > 0 {
        if flips[start - 1].y < line {
            return start;
        }
        start -= 1;
    }
    0
}

/// The columns that flips of one line change, as a row. Only want of memory is an error.
pub fn row_of(alloc: Global, flips: &[Flip]) -> Result<Row, AllocError>
    requires { IsRow (spans_of flips.now) }
    ensures { IfOk result (λ row. row ≡ spans_of flips.now) }
{
    let mut row = Row::new(alloc);
    for flip in flips {
        row.push_end(flip.x0, flip.x1)?;
    }
    Ok(row)
}
