//! Upright sides that stand above a line.

ghost use Rattle.std.specs.Prelude.{int_le, int_lt};

use chunked_list::Test;

/// An upright side that stands in the rows above a line: its line of x, the line of y at which it ends above, and
/// whether its squares lie to the west of it, so that it is their E side.
#[derive(Clone, Copy, Debug)]
pub(crate) struct Upright {
    pub(crate) line: i64,
    pub(crate) top: i64,
    pub(crate) east: bool,
}

/// Passes on the line of x and to the left of it.
#[derive(Clone, Copy)]
pub(crate) struct UpTo(pub(crate) i64);

impl Test<Upright> for UpTo {
    ghost passed_by = { λ t u. int_le u.line t.0 };

    fn passes(&self, item: &Upright) -> bool {
        item.line <= self.0
    }
}

/// Passes to the left of the line of x.
#[derive(Clone, Copy)]
pub(crate) struct LeftOf(pub(crate) i64);

impl Test<Upright> for LeftOf {
    ghost passed_by = { λ t u. int_lt u.line t.0 };

    fn passes(&self, item: &Upright) -> bool {
        item.line < self.0
    }
}
