use crate::{Gives, Limits, Rule};

/// An operation of a plan. Its layers stand beside it (see `Node`). Values are in database units, areas in their squares.
#[derive(Debug, PartialEq, Eq, Hash, Drop)]
pub enum Op {
    /// What the layout draws on these numbers, which are sorted and distinct.
    Drawn(Vec<u32>),
    And,
    Or,
    Not,
    Xor,
    /// SIZE BY, which shrinks where it is below 0.
    Size { by: i32 },
    /// SIZE BY with OVERUNDER: grown, then shrunk.
    OverUnder { by: u32 },
    /// SIZE BY with UNDEROVER: shrunk, then grown.
    UnderOver { by: u32 },
    Inside { negated: bool },
    Outside { negated: bool },
    Cut { negated: bool },
    Touch { negated: bool },
    Interact { negated: bool },
    Enclose { negated: bool },
    Area(Limits),
    Rectangle,
    /// EXPAND EDGE INSIDE BY.
    ExpandInside { by: u32 },
    /// EXPAND EDGE OUTSIDE BY.
    ExpandOutside { by: u32 },
    Length(Limits),
    /// ANGLE, of 90 degrees where it is upright and else of 0.
    Angle { upright: bool },
    /// INSIDE EDGE, and so on.
    InsideEdge { negated: bool },
    OutsideEdge { negated: bool },
    CoincidentEdge { negated: bool },
    OrEdge,
    /// INT, EXT or ENC, and what it gives.
    Check { rule: Rule, gives: Gives },
    /// The lines of results that a layer has in the results file. No deck names it: a plan has one for each output.
    Write,
}
