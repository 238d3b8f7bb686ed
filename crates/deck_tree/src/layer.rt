//! Layers: names of layers, and what is derived from them.

use crate::{Distance, Infix, Limits, NameAt, Value};
use sqlite_items::{Boxed, Items};

/// Layers that are combined, from left to right.
#[cycle(layer)]
#[derive(Drop)]
pub struct Layer {
    pub first: Primary,
    pub more: Items<Operation>,
}

/// An operator, the offset of its first keyword, and the layer on its right.
#[cycle(layer)]
#[derive(Drop)]
pub struct Operation {
    pub at: u64,
    pub operator: Infix,
    pub right: Primary,
}

/// A layer that stands alone or on one side of an operation. The offsets are those of the first keyword.
#[cycle(layer)]
#[derive(Drop)]
pub enum Primary {
    Term(Term),
    Prefix(u64, Boxed<Prefix>),
    Distance(u64, Boxed<Distance>),
}

/// A layer's name, or a layer in round brackets with the offset of the one that opens.
#[cycle(layer)]
#[derive(Drop)]
pub enum Term {
    Name(NameAt),
    Bracketed(u64, Boxed<Layer>),
}

/// An operation on one layer.
#[cycle(layer)]
#[derive(Drop)]
pub enum Prefix {
    Copy(Term),
    Rectangle(Term),
    Area(Term, Limits),
    Length(Term, Limits),
    /// SIZE BY.
    Size(Term, Value, Option<Turn>),
    Angle(Term, Value),
    /// EXPAND EDGE.
    Expand(Term, ExpandSide, Value),
}

/// Whether SIZE grows and then shrinks, or the other way round.
#[derive(Clone, Copy, Debug, PartialEq, Eq)]
pub enum Turn {
    OverUnder,
    UnderOver,
}

/// To which side of an edge EXPAND EDGE goes.
#[derive(Clone, Copy, Debug, PartialEq, Eq)]
pub enum ExpandSide {
    Inside,
    Outside,
}
