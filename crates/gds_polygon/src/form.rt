//! Whether a list of points is a closed right-angled outline.

ghost use Rattle.std.specs.Prelude.{◌↔◌, IsTrue};
ghost use Rattle.gds_polygon.specs.Outlines.{IsClosed, IsRightAngled, IsRightAngledStep};

use drc_geom::Pt;

/// Is the last point the first again? So is a list of no points.
pub fn is_closed(points: &[Pt]) -> bool
    ensures { IsTrue result ↔ IsClosed points.now }
{
    let [first, more @ ..] = points else {
        return true;
    };
    let mut last = *first;
    for p in more {
        last = *p;
    }
    last == *first
}

/// Is each step from a point to the next level or upright?
pub fn is_right_angled(points: &[Pt]) -> bool
    ensures { IsTrue result ↔ IsRightAngled points.now }
{
    let [first, more @ ..] = points else {
        return true;
    };
    let mut a = *first;
    for b in more {
        if !is_right_angled_step(a, *b) {
            return false;
        }
        a = *b;
    }
    true
}

fn is_right_angled_step(a: Pt, b: Pt) -> bool
    ensures { IsTrue result ↔ IsRightAngledStep a b }
{
    a.x == b.x || a.y == b.y
}
