//! Checks of distances: INT, EXT and ENC.

use crate::{Bound, NameAt, Value};
use sqlite_items::Boxed;

/// A check of distances, with one input or two.
#[derive(Drop)]
pub struct Distance {
    pub kind: DistanceKind,
    pub first: Input,
    pub second: Option<Input>,
    pub bound: Bound,
    pub options: Options,
}

#[derive(Clone, Copy, Debug, PartialEq, Eq)]
pub enum DistanceKind {
    /// INT: widths.
    Internal,
    /// EXT: spaces.
    External,
    /// ENC: how far the first layer lies inside the second.
    Enclosure,
}

/// A layer's name, or one in square brackets: its sides are then the output. The first part of the latter is the
/// offset of the bracket.
#[derive(Drop)]
pub enum Input {
    Plain(NameAt),
    Bracketed(u64, NameAt),
}

/// The options of a check. Their order in the deck doesn't matter.
#[derive(Drop)]
pub struct Options {
    /// The value of ABUT.
    pub abut: Option<Boxed<Value>>,
    pub singular: bool,
    pub metric: Option<Metric>,
    pub gap: Option<Gap>,
    pub region: bool,
}

#[derive(Clone, Copy, Debug, PartialEq, Eq)]
pub enum Metric {
    Opposite,
    Square,
}

/// Whether an EXT of one layer looks inside its polygons alone, or between them.
#[derive(Clone, Copy, Debug, PartialEq, Eq)]
pub enum Gap {
    Notch,
    Space,
}
