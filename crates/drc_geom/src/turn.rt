ghost use Rattle.std.specs.Prelude.{◌≡◌, ◌<◌};
ghost use Rattle.drc_geom.specs.declared.point.Pt.{Pt};
ghost use Rattle.drc_geom.specs.Turns.{IsPlaced, apply_of, mirrored, turned};

use crate::point::Pt;

/// A mirroring and a turn: where `mirror` says so, y changes its sign, and then the plane turns counterclockwise round
/// (0, 0) by `quarter` quarters. Four quarters are none, so 0 to 3 name all turns.
#[derive(Clone, Copy, Debug, PartialEq, Eq)]
pub struct Turn {
    pub mirror: bool,
    pub quarter: u8,
}

impl Turn {
    /// Where the point goes.
    pub fn apply(&self, p: Pt) -> Pt
        requires { IsPlaced p }
        ensures value { result ≡ apply_of self.now p }
        ensures placed { IsPlaced result }
    {
        turned(self.quarter, mirrored(self.mirror, p))
    }

    /// This turn followed by the next, as one turn of fewer than four quarters.
    pub fn then(&self, next: &Turn) -> Turn
        ensures follows { (p : Pt) → apply_of result p ≡ apply_of next.now (apply_of self.now p) }
        ensures reduced { result.quarter < 4 }
    {
        // before a mirroring the first turn goes the other way round
        let reversed = next.mirror;
        let first = if reversed {
            4 - self.quarter % 4
        } else {
            self.quarter % 4
        };
        Turn {
            mirror: self.mirror != next.mirror,
            quarter: (next.quarter % 4 + first) % 4,
        }
    }
}

fn mirrored(mirror: bool, p: Pt) -> Pt
    requires { IsPlaced p }
    ensures value { result ≡ mirrored mirror p }
    ensures placed { IsPlaced result }
{
    if mirror { Pt { x: p.x, y: -p.y } } else { p }
}

fn turned(quarters: u8, p: Pt) -> Pt
    requires { IsPlaced p }
    ensures value { result ≡ turned quarters p }
    ensures placed { IsPlaced result }
{
    match quarters % 4 {
        0 => p,
        1 => Pt { x: -p.y, y: p.x },
        2 => Pt { x: -p.x, y: -p.y },
        _ => Pt { x: p.y, y: -p.x },
    }
}
