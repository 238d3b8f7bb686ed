//! A region, and what its callers see of it.

ghost use Rattle.std.specs.Prelude.{◌≡◌, ◌≤◌, ◌++◌, [], length, take, OnOk, OnErr};
ghost use Rattle.region_form.specs.Flips.{AreSorted, IsRegion, squares};

use crate::flip::Flip;
use std::alloc::{AllocError, Global};
use std::marker::Model;

/// A set of squares, as its flips in the one form that equal sets share.
#[derive(Debug, Drop)]
pub struct Region {
    pub(crate) alloc: Global,
    pub(crate) flips: Vec<Flip>,
}

impl Model for Region {
    ghost use Rattle.std.specs.Prelude.{List};
    ghost use Rattle.region_form.specs.declared.flip.Flip.{Flip};
    ghost use Rattle.region_form.specs.Flips.{IsRegion};

    ghost Value = { List Flip };

    ghost view = { λ r. r.flips.items };

    ghost invariant = { λ r. IsRegion r.flips.items };
}

impl Region {
    /// The region that has no square.
    pub fn new(alloc: Global) -> Region
        ensures { result ≡ [] }
    {
        Region {
            alloc,
            flips: Vec::new(alloc),
        }
    }

    /// The allocator that the region's memory is from.
    pub fn alloc(&self) -> Global {
        self.alloc
    }

    /// Puts other flips in the place of those from an index on, where that leaves the form of a region.
    /// Only want of memory is an error, and then nothing changes.
    pub fn replace_end(&mut self, start: usize, end: &[Flip]) -> Result<(), AllocError>
        requires start { start ≤ length self.old }
        requires form { IsRegion (take start self.old ++ end.now) }
        ensures ok { OnOk result (self.new ≡ take start self.old ++ end.now) }
        ensures err { OnErr result (self.new ≡ self.old) }
    {
        // The room is taken first, so that nothing changes where memory is wanting.
        self.flips.reserve(end.len())?;
        self.flips.truncate(start);
        self.flips.extend_from_slice(end)
    }

    /// Whether the region has the square of column x and row y, which are numbers of database units.
    pub fn covers(&self, x: i64, y: i64) -> bool
        ensures { result ≡ squares self.now x y }
    {
        has_square(self.flips(), x, y)
    }

    /// The flips, by line and then column.
    pub fn flips(&self) -> &[Flip]
        ensures flips { result.now ≡ self.now }
        ensures form { IsRegion result.now }
    {
        self.flips.as_slice()
    }
}

// Whether an odd number of flips at or below row y change column x.
fn has_square(flips: &[Flip], x: i64, y: i64) -> bool
    requires { AreSorted flips.now }
    ensures { result ≡ squares flips.now x y }
{
    let mut is_in = false;
    for flip in flips {
        if y < flip.y {
            break;
        }
        is_in = is_in != flip.changes(x);
    }
    is_in
}
