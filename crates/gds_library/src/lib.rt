//! The library that the records of a GDSII stream say, and its reader, which is given the records one by one.
//!
//! ```text
//! records   HEADER BGNLIB LIBNAME UNITS   BGNSTR STRNAME   BOUNDARY LAYER DATATYPE XY ENDEL   ENDSTR ENDLIB
//! library   units, and where ENDLIB is    a structure      an element, its points             ready
//! ```
//!
//! A structure keeps the points of all its elements in one list, and each element says where its own are: so a layout of
//! a million rectangles has two allocations a structure, and eight bytes for a point.
#![tactic(auto)]

mod builder;
mod draft;
mod element;
mod fields;
mod keep;
mod laws;
mod library;
mod names;
mod part;
mod structure;

pub use builder::Builder;
pub use element::{Counts, Element, Given, Instance, Outline, Path, Point};
pub use keep::Keep;
pub use laws::{endlib_ends_a_stream, one_library, one_refusal};
pub use library::Library;
pub use structure::Structure;

#[cfg(test)]
mod tests;
