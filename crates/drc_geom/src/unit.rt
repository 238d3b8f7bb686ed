ghost use Rattle.std.specs.Prelude.{◌≡◌};
ghost use Rattle.drc_geom.specs.Runs.{side_rank};

/// The side of a square, by the compass: north is towards greater y.
#[derive(Clone, Copy, Debug, PartialEq, Eq)]
pub enum Side {
    N,
    E,
    S,
    W,
}

impl Side {
    /// Where the side stands among sides at one place: horizontal ones before vertical ones, then in the order N, E, S, W.
    pub fn rank(self) -> u8
        ensures { result ≡ side_rank self }
    {
        match self {
            Side::N => 0,
            Side::S => 1,
            Side::E => 2,
            Side::W => 3,
        }
    }
}

/// One side of the unit square (x, y).
#[derive(Clone, Copy, Debug, PartialEq, Eq)]
pub struct Unit {
    pub x: i64,
    pub y: i64,
    pub side: Side,
}
