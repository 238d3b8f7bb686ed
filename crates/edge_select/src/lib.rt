//! Selections of the units of an edge layer.
//!
//! ```text
//!          4                 LENGTH .. > 3 keeps the whole side of four units and drops those of two and three:
//!   +-------------+          a run stays whole or goes whole, so what is kept needs no joining
//!   |             | 2
//! 3 |        +----+
//!   |        |
//!   +--------+
//!       2
//! ```
#![tactic(auto)]

mod by_length;
#[cfg(test)]
mod tests;

pub use by_length::length;
