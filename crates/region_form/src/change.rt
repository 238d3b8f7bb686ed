//! What changes on one line, as a row and as flips.

ghost use Rattle.std.specs.Prelude.{◌≡◌, ◌≤◌, length, drop, IfOk};
ghost use Rattle.interval_row.specs.Rows.{IsRow};
ghost use Rattle.region_form.specs.Working.Changes.{spans_up_to};

use crate::flip::Flip;
use interval_row::Row;
use std::alloc::{AllocError, Global};

/// The columns of the flips before the first that lies above the line. Only want of memory is an error.
pub fn row_up_to(line: i64, flips: &[Flip], alloc: Global) -> Result<Row, AllocError>
    requires { IsRow (spans_up_to line flips.now) }
    ensures { IfOk result (λ row. row ≡ spans_up_to line flips.now) }
{
    let mut row = Row::new(alloc);
    for flip in flips {
        if line < flip.y {
            break;
        }
        row.push_end(flip.x0, flip.x1)?;
    }
    Ok(row)
}

/// The flips behind the first so many.
pub fn flips_behind(count: usize, flips: &[Flip]) -> &[Flip]
    requires { count ≤ length flips.now }
    ensures { result.now ≡ drop count flips.now }
{
    &flips[count..]
}
