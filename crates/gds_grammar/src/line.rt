//! The lines of the grammar that are elements.

/// An element that has a layer.
#[derive(Clone, Copy, Debug, PartialEq, Eq)]
pub enum Shape {
    /// BOUNDARY
    Boundary,
    /// PATH
    Path,
    /// TEXT
    Text,
    /// NODE
    Node,
    /// BOX
    Box,
}

/// An element that has the name of a structure.
#[derive(Clone, Copy, Debug, PartialEq, Eq)]
pub enum Reference {
    /// SREF
    Single,
    /// AREF
    Array,
}

/// A line of the grammar that is an element.
#[derive(Clone, Copy, Debug, PartialEq, Eq)]
pub enum Line {
    Shape(Shape),
    Reference(Reference),
}

/// An element that may have STRANS, MAG and ANGLE.
#[derive(Clone, Copy, Debug, PartialEq, Eq)]
pub enum Turned {
    Text,
    Reference(Reference),
}
