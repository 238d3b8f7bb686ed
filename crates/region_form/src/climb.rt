//! The reader of a region: it goes up line by line.
//!
//! ```text
//!       +-------+      y=3   the flips that are left: those of line 3
//!       |       |            <- the climb stands here: its row has the columns 2 to 5
//!    +--+-------+--+   y=2   passed: the row below was 1 to 6, the flips of line 2 made it 2 to 5
//!    |             |
//!    +-------------+   y=0   passed: the row below had no column, the flip of line 0 made it 1 to 6
//! ```

ghost use Rattle.std.specs.Prelude.{◌≡◌, [], ℤ, ◌<ℤ◌, ◌≤ℤ◌, IfOk, OnOk, OnErr};
ghost use Rattle.interval_row.specs.Rows.{has};
ghost use Rattle.region_form.specs.Flips.{IsRegion};
ghost use Rattle.region_form.specs.Climbs.{IsStandpoint, LiesBelow, ahead, first_line, flips_above};

use crate::change::{flips_behind, row_up_to};
use crate::flip::Flip;
use crate::region::Region;
use interval_row::Row;
use std::alloc::{AllocError, Global};
use std::marker::Model;
use std::mem::replace;

/// A climb up a region: the row above the last line that was passed, and the flips of the lines above it.
#[derive(Drop)]
pub struct Climb<'a> {
    alloc: Global,
    row: Row,
    flips: &'a [Flip],
}

impl<'a> Model for Climb<'a> {
    ghost use Rattle.region_form.specs.Flips.{IsRegion};
    ghost use Rattle.region_form.specs.Climbs.{IsStandpoint, Standpoint};

    ghost Value = { Standpoint };

    ghost view = { λ c. record { row = c.row; flips = c.flips.now } };

    ghost invariant = { λ c. IsStandpoint (record { row = c.row; flips = c.flips.now }) };
}

impl<'a> Climb<'a> {
    /// A climb that stands below the lowest line of the region.
    pub fn new(alloc: Global, region: &'a Region) -> Climb<'a>
        ensures place { result ≡ record { row = []; flips = region.now } }
        ensures form { IsRegion region.now }
    {
        Climb {
            alloc,
            row: Row::new(alloc),
            flips: region.flips(),
        }
    }

    /// The next line on which a square changes, or none above which there is no square.
    pub fn next_line(&self) -> Option<i64>
        ensures line { result ≡ first_line self.now.flips }
        ensures row { (x y : ℤ) → LiesBelow y result → ahead self.now x y ≡ has self.now.row x }
        ensures place { IsStandpoint self.now }
    {
        first_line(self.flips)
    }

    /// The row above the last line that was passed, and up to the next one.
    pub fn row(&self) -> &Row
        ensures row { result.now ≡ self.now.row }
    {
        &self.row
    }

    /// Goes past a line, at or above which all lines lie that are not passed yet. It gives back the row below the line.
    /// Only want of memory is an error, and then nothing changes.
    pub fn pass(&mut self, line: i64) -> Result<Row, AllocError>
        requires { (y : ℤ) → y <ℤ line → LiesBelow y (first_line self.old.flips) }
        ensures below { IfOk result (λ row. row ≡ self.old.row) }
        ensures flips { OnOk result (self.new.flips ≡ flips_above line self.old.flips) }
        ensures ahead { OnOk result ((x y : ℤ) → line ≤ℤ y → ahead self.new x y ≡ ahead self.old x y) }
        ensures err { OnErr result (self.new ≡ self.old) }
    {
        let change = row_up_to(line, self.flips, self.alloc)?;
        let row = self.row.xor(&change)?;
        self.flips = flips_behind(change.list().len(), self.flips);
        Ok(replace(&mut self.row, row))
    }
}

fn first_line(flips: &[Flip]) -> Option<i64>
    ensures { result ≡ first_line flips.now }
{
    match flips {
        [] => None,
        [first, ..] => Some(first.y),
    }
}
