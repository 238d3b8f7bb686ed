//! The five points of a rectangle, as XY holds them.

ghost use Rattle.std.specs.Prelude.{◌≡◌, ◌+◌, ◌*◌, ◌<◌, ◌≤◌, ◌↔◌, IsTrue, length};
ghost use Rattle.drc_cli.specs.Layout.{coordinate, points_in, rect_in, IsOutline, IsInRange};
ghost use Rattle.drc_geom.specs.Squares.{IsRect};
ghost use Rattle.drc_geom.specs.Winding.{outline};

use byteorder::{BigEndian, ByteOrder};
use drc_geom::Rect;

/// The bytes of five points.
const OUTLINE: usize = 40;

/// The greatest coordinate; its negative is the least.
const REACH: i64 = 1 << 30;

/// Are these five points the corners of a rectangle with an area, in range, from the lower left one on
/// counterclockwise?
pub fn is_outline(body: &[u8]) -> bool
    ensures { IsTrue result ↔ IsOutline body.now }
{
    if body.len() != OUTLINE {
        return false;
    }
    let r = rect_in(body);
    has_area(&r) && is_in_range(&r) && goes_round(body, &r)
}

/// The rectangle between the first and the third point.
pub fn rect_in(body: &[u8]) -> Rect
    requires { length body.now ≡ 40 }
    ensures { result ≡ rect_in body.now }
{
    Rect {
        x0: coordinate(body, 0),
        y0: coordinate(body, 1),
        x1: coordinate(body, 4),
        y1: coordinate(body, 5),
    }
}

fn has_area(r: &Rect) -> bool
    ensures { IsTrue result ↔ IsRect r.now }
{
    r.x0 < r.x1 && r.y0 < r.y1
}

fn is_in_range(r: &Rect) -> bool
    ensures { IsTrue result ↔ IsInRange r.now }
{
    -REACH <= r.x0 && -REACH <= r.y0 && r.x1 <= REACH && r.y1 <= REACH
}

fn goes_round(body: &[u8], r: &Rect) -> bool
    requires { length body.now ≡ 40 }
    ensures { IsTrue result ↔ (points_in body.now ≡ outline r.now) }
{
    is_at(body, 0, r.x0, r.y0)
        && is_at(body, 1, r.x1, r.y0)
        && is_at(body, 2, r.x1, r.y1)
        && is_at(body, 3, r.x0, r.y1)
        && is_at(body, 4, r.x0, r.y0)
}

fn is_at(body: &[u8], point: usize, x: i64, y: i64) -> bool
    requires size { length body.now ≡ 40 }
    requires there { point < 5 }
    ensures { IsTrue result ↔ ((coordinate (2 * point) body.now ≡ x) × (coordinate (2 * point + 1) body.now ≡ y)) }
{
    coordinate(body, 2 * point) == x && coordinate(body, 2 * point + 1) == y
}

fn coordinate(body: &[u8], index: usize) -> i64
    requires { 4 * index + 4 ≤ length body.now }
    ensures { result ≡ coordinate index body.now }
{
    i64::from(BigEndian::read_i32(&body[4 * index..]))
}
