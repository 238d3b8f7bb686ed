//! Where structures are drawn.

ghost use Rattle.std.specs.Prelude.{◌≡◌, ◌*◌, ◌^◌, ◌<◌, ◌≤◌, ◌+ℤ◌, ◌*ℤ◌, pos, unsigned_abs};
ghost use Rattle.drc_geom.specs.Turns.{IsPlaced};
ghost use Rattle.gds_placing.specs.Places.{MayStand, place_of, then_of, unmoved};

use drc_geom::{Pt, Turn};

/// Where a structure is drawn: reflected about the x axis or not, magnified, turned counterclockwise by quarters, and
/// moved, in this order.
#[derive(Clone, Copy, Debug, PartialEq, Eq)]
pub struct Placement {
    /// The reflection and the quarters.
    pub turn: Turn,
    /// How many times as great it is drawn.
    pub magnification: u32,
    /// Where its (0, 0) is drawn, in database units.
    pub origin: Pt,
}

impl Placement {
    /// The place of a structure that is drawn as it stands.
    pub fn unmoved() -> Placement
        ensures { result ≡ unmoved }
    {
        Placement {
            turn: Turn {
                mirror: false,
                quarter: 0,
            },
            magnification: 1,
            origin: Pt { x: 0, y: 0 },
        }
    }

    /// Where a point of the structure is drawn.
    pub fn apply(&self, p: Pt) -> Pt
        requires place { MayStand self.now }
        requires point { IsPlaced p }
        ensures { result ≡ place_of self.now p }
    {
        let turned = self.turn.apply(p);
        Pt {
            x: drawn(self.origin.x, self.magnification, turned.x),
            y: drawn(self.origin.y, self.magnification, turned.y),
        }
    }

    /// The place of what is drawn here in a structure that is itself drawn at the outer place.
    pub fn then(&self, outer: &Placement) -> Placement
        requires outer { MayStand outer.now }
        requires origin { IsPlaced self.now.origin }
        requires magnified { self.now.magnification * outer.now.magnification ≤ 65536 }
        ensures { result ≡ then_of self.now outer.now }
    {
        Placement {
            turn: self.turn.then(&outer.turn),
            magnification: self.magnification * outer.magnification,
            origin: outer.apply(self.origin),
        }
    }
}

// A coordinate, so many times as great and moved.
fn drawn(by: i64, times: u32, z: i64) -> i64
    requires by { unsigned_abs by ≤ 2 ^ 30 }
    requires times { times ≤ 65536 }
    requires near { unsigned_abs z < 2 ^ 40 }
    ensures { result ≡ by +ℤ (pos times *ℤ z) }
{
    by + i64::from(times) * z
}
