//! The elements that are drawn or placed, without their points.

use drc_geom::Name;
use gds_records::Real8;

/// A point of a layout, in database units.
#[derive(Clone, Copy, Debug, PartialEq, Eq)]
pub struct Point {
    pub x: i32,
    pub y: i32,
}

/// What a record says that may be left out, and the offset of the record.
#[derive(Clone, Copy, Debug, PartialEq, Eq)]
pub struct Given<T> {
    pub at: u64,
    pub value: T,
}

/// What a BOUNDARY, a PATH or a BOX is, but for its points.
#[derive(Clone, Copy, Debug, PartialEq, Eq)]
pub struct Outline {
    /// The offset of the record that opens it.
    pub at: u64,
    /// LAYER
    pub layer: i16,
    /// DATATYPE, or BOXTYPE of a BOX.
    pub data_type: i16,
    /// The offset of its XY.
    pub points_at: u64,
}

/// What a PATH is, but for its points.
#[derive(Clone, Copy, Debug, PartialEq, Eq)]
pub struct Path {
    pub outline: Outline,
    /// PATHTYPE
    pub path_type: Option<Given<i16>>,
    /// WIDTH, in database units.
    pub width: Option<Given<i32>>,
    /// BGNEXTN, in database units.
    pub begin_extension: Option<Given<i32>>,
    /// ENDEXTN, in database units.
    pub end_extension: Option<Given<i32>>,
}

/// How many copies an AREF has: COLROW.
#[derive(Clone, Copy, Debug, PartialEq, Eq)]
pub struct Counts {
    pub columns: i16,
    pub rows: i16,
}

/// What an SREF or an AREF is, but for its points.
#[derive(Debug, Drop)]
pub struct Instance {
    /// The offset of the record that opens it.
    pub at: u64,
    /// SNAME, without the NULs that pad it.
    pub name: Name,
    /// The offset of its SNAME.
    pub name_at: u64,
    /// STRANS, bit by bit.
    pub transform: Option<Given<i16>>,
    /// MAG
    pub magnification: Option<Given<Real8>>,
    /// ANGLE, in degrees counterclockwise.
    pub angle: Option<Given<Real8>>,
    /// COLROW of an AREF; none in an SREF.
    pub counts: Option<Given<Counts>>,
    /// The offset of its XY.
    pub points_at: u64,
}

/// An element that is drawn or placed, without its points.
#[derive(Debug, Drop)]
pub enum Element {
    Boundary(Outline),
    Box(Outline),
    Path(Box<Path>),
    Instance(Box<Instance>),
}
