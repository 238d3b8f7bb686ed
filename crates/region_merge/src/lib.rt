//! The region that rectangles cover together.
//!
//! ```text
//!        +-----+                 +-----+
//!     +--+--+  |              +--+     |
//!     |  +--+--+     becomes  |     +--+
//!     |     |                 |     |
//!     +-----+                 +-----+
//! ```
//!
//! The sides of the rectangles are swept, those where one begins and those where one ends: the value of a column is how
//! many rectangles cross it, and it is inside where that isn't 0.
#![tactic(auto)]

mod cover;
mod overlaps;
mod sides;
#[cfg(test)]
mod tests;

pub use cover::merge;
