//! The rectangles that a path covers: a line of a width, drawn along points with right angles.
//!
//! ```text
//!        +---------------+         A segment goes from corner to corner, and its rectangle half a width to both sides.
//!        |  2 .......... |  3      At a corner both segments are lengthened by half a width; at the two ends the first
//!        |  .  +---------+         and the last are lengthened as the path's ends say, here by nothing.
//!        |  .  |
//!        +--.--+                   A point that stands twice, and one between two segments of one direction, is no
//!           1                      corner.
//! ```
#![tactic(auto)]

mod along;
mod fault;
mod pen;
mod rects;
mod stroke;

pub use fault::PathFault;
pub use rects::path_rects;
pub use stroke::{Ends, Extension, Stroke};

#[cfg(test)]
mod tests;
