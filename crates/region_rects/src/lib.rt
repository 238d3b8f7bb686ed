//! The canonical rectangles of a region: maximal stacks of equal stretches. They don't overlap, and cover its squares.
//!
//! ```text
//!    y=3     +-----+
//!            |     |            the rectangles of this region are columns 0 to 3 in row 0,
//!    y=1  +--+--+--+            and columns 1 to 2 in rows 1 and 2
//!         |        |
//!    y=0  +--------+
//!        x=0 1  2  3
//! ```
//!
//! In each row of squares a *stretch* is a maximal row of adjacent squares of the region. A sweep goes over the region
//! turned over, line of x by line of x: where rows end that began on one line, a rectangle ends. At last the rectangles are
//! put in order, the lowest first and of those the one on the left.
#![tactic(auto)]

mod ended;
mod pass;
mod stretch;
#[cfg(test)]
mod tests;

pub use ended::rectangles;
