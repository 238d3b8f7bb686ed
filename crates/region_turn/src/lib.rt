//! A region turned over: x and y change places.
//!
//! ```text
//!    y=2  +--+                            y=2     +-----+
//!         |  |                                    |     |
//!    y=1  |  +--+          becomes        y=1  +--+     |        and back, by the same turn
//!         |     |                              |        |
//!    y=0  +-----+                         y=0  +--------+
//!        x=0 1  2
//! ```
//!
//! What is said of the rows of a region is so said of its columns: its upright sides are the level ones of the region
//! turned over.
#![tactic(auto)]

mod corner;
#[cfg(test)]
mod tests;
mod turning;

pub use turning::turn_over;
