ghost use Rattle.std.specs.Prelude.{◌≡◌};
ghost use Rattle.region_form.specs.Flips.{changes};

/// On line y the squares of the columns x0 to x1 - 1 change: the row above the line differs there from the row below
/// it. The numbers are database units.
#[derive(Clone, Copy, Debug, PartialEq, Eq)]
pub struct Flip {
    pub y: i64,
    pub x0: i64,
    pub x1: i64,
}

impl Flip {
    /// Whether the squares of column x change.
    pub fn changes(self, x: i64) -> bool
        ensures { result ≡ changes self x }
    {
        self.x0 <= x && x < self.x1
    }
}
