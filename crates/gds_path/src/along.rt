//! Steps between points, and rectangles along them.

ghost use Rattle.std.specs.Prelude.{◌≡◌, ◌==◌, ◌+ℤ◌, ◌-ℤ◌};
ghost use Rattle.std.specs.Option.{option_to_list};
ghost use Rattle.drc_geom.specs.Runs.{side_rank};
ghost use Rattle.gds_path.specs.Paths.{IsMeasured, heading, is_reached, is_same, is_within, with_area};

use drc_geom::{Pt, Rect, Side};

/// How far from (0, 0) a rectangle may lie.
const REACH: u64 = 1 << 30;

pub(crate) fn is_same(a: Pt, b: Pt) -> bool
    ensures { result ≡ is_same a b }
{
    a.x == b.x && a.y == b.y
}

/// The direction from one point to another.
pub(crate) fn heading(a: Pt, b: Pt) -> Side
    ensures { result ≡ heading a b }
{
    if a.y == b.y {
        if a.x < b.x { Side::E } else { Side::W }
    } else if a.y < b.y {
        Side::N
    } else {
        Side::S
    }
}

pub(crate) fn is_same_side(a: Side, b: Side) -> bool
    ensures { result ≡ (side_rank a == side_rank b) }
{
    a.rank() == b.rank()
}

pub(crate) fn less(z: i64, by: i64) -> i64
    requires z { IsMeasured z }
    requires by { IsMeasured by }
    ensures { result ≡ z -ℤ by }
{
    z - by
}

pub(crate) fn more(z: i64, by: i64) -> i64
    requires z { IsMeasured z }
    requires by { IsMeasured by }
    ensures { result ≡ z +ℤ by }
{
    z + by
}

/// The rectangle, if it has an area.
pub(crate) fn with_area(rect: Rect) -> Option<Rect>
    ensures { option_to_list result ≡ with_area rect }
{
    if rect.x0 < rect.x1 && rect.y0 < rect.y1 {
        Some(rect)
    } else {
        None
    }
}

/// Whether all sides of the rectangle lie within -2^30 to 2^30.
pub(crate) fn is_within(rect: &Rect) -> bool
    ensures { result ≡ is_within rect.now }
{
    is_reached(rect.x0) && is_reached(rect.x1) && is_reached(rect.y0) && is_reached(rect.y1)
}

fn is_reached(z: i64) -> bool
    ensures { result ≡ is_reached z }
{
    z.unsigned_abs() <= REACH
}
