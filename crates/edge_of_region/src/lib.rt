//! The boundary of a region: the units whose square is in it and whose outside square isn't.
//!
//! ```text
//!          N
//!     +---------+            two squares in a row have six such units: S and N of each,
//!   W |(0,0)(1,0)| E         W of the first and E of the second
//!     +---------+
//!          S
//! ```
//!
//! A sweep goes down over the flips of the region. Its state are the upright sides that stand in the rows above the line.
//!
//! ```text
//!    row above      |####|....|####|      a flip from the first upright side to beyond the last one: each side in it ends
//!    flip           +---------------+     on the line, and begins anew on the other side if it stands between the ends.
//!    row below      .....|####|....|#     Over the flip lie S sides under squares, and N sides over squares
//! ```
//!
//! An upright run is whole where its lower end is reached, which is its place in run order, and within a line the sweep
//! goes from right to left. So all runs come in falling order, and to put them in order takes one pass.
#![tactic(auto)]

mod boundary_of;
mod downwards;
#[cfg(test)]
mod tests;
mod upright;
mod walk;

pub use boundary_of::boundary;
