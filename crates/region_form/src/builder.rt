//! The builder of a region: it rises line by line.
//!
//! ```text
//!    . . ?  . . ?            each row from here on is as the last one, until the builder rises again
//!    +--+-------+--+   y=2   rise(2, 2 to 5): the rows 1 to 6 and 2 to 5 differ in 1 and 6, which are the flips of line 2
//!    |             |
//!    +-------------+   y=0   rise(0, 1 to 6): the empty row and 1 to 6 differ in 1 to 6, the flip of line 0
//! ```

ghost use Rattle.std.specs.Prelude.{◌≡◌, [], ℤ, pos, ◌+ℤ◌, int_le, if◌then◌else◌, false, OnOk, OnErr};
ghost use Rattle.interval_row.specs.Rows.{has};
ghost use Rattle.region_form.specs.Flips.{AreBelow, squares};
ghost use Rattle.region_form.specs.Climbs.{Standpoint};

use crate::flip::Flip;
use crate::line_flips::flips_on;
use crate::region::Region;
use interval_row::Row;
use std::alloc::{AllocError, Global};
use std::marker::Model;

/// A region that is built upwards: the flips of the lines so far, and the row that stands on the last of them.
#[derive(Drop)]
pub struct Builder {
    alloc: Global,
    row: Row,
    flips: Vec<Flip>,
}

impl Model for Builder {
    ghost use Rattle.region_form.specs.Climbs.{IsStandpoint, Standpoint};

    ghost Value = { Standpoint };

    ghost view = { λ b. record { row = b.row; flips = b.flips.items } };

    ghost invariant = { λ b. IsStandpoint (record { row = b.row; flips = b.flips.items }) };
}

impl Builder {
    /// A builder that has no square yet.
    pub fn new(alloc: Global) -> Builder
        ensures { result ≡ record { row = []; flips = [] } }
    {
        Builder {
            alloc,
            row: Row::new(alloc),
            flips: Vec::new(alloc),
        }
    }

    /// From this line on, which lies above all lines so far, each row is the given one. The squares below the line stay.
    /// Only want of memory is an error, and then nothing changes.
    pub fn rise(&mut self, line: i64, row: Row) -> Result<(), AllocError>
        requires { AreBelow line self.old.flips }
        ensures row { OnOk result (self.new.row ≡ row) }
        ensures lines { OnOk result (AreBelow (line +ℤ pos 1) self.new.flips) }
        ensures squares { OnOk result ((x y : ℤ) → squares self.new.flips x y
            ≡ (if int_le line y then has row x else squares self.old.flips x y)) }
        ensures err { OnErr result (self.new ≡ self.old) }
    {
        let change = self.row.xor(&row)?;
        let flips = flips_on(self.alloc, line, &change)?;
        self.flips.extend_from_slice(&flips)?;
        self.row = row;
        Ok(())
    }

    /// The region, where the row that stands last has no place.
    pub fn finish(self) -> Region
        requires { (x : ℤ) → has self.row x ≡ false }
        ensures { result ≡ self.flips }
    {
        Region {
            alloc: self.alloc,
            flips: self.flips,
        }
    }
}
