//! Regions that are grown and shrunk.
//!
//! ```text
//!      +-----------+
//!      |  +-----+  |      grown by d: each square that has one of the region within d columns and d rows;
//!      |  |     |  |      shrunk by d: each square all of whose squares within d columns and d rows are in the region
//!      |  +-----+  |
//!      +-----------+
//! ```
//!
//! A region is grown along x and then along y: its rectangles, each made wider, are merged, and the rectangles of that,
//! each made higher. It is shrunk by what is near to a square outside.
#![tactic(auto)]

mod grow;
mod shrink;
mod sized;
#[cfg(test)]
mod tests;
mod widen;

pub use sized::size;
