//! The booleans of two regions.
//!
//! ```text
//!    first      +-----+          AND  the squares of both       NOT  those of the first alone
//!               |  +--+--+       OR   those of either           XOR  those of one alone
//!    second     +--+--+  |
//!                  +-----+
//! ```
//!
//! AND, OR and NOT are the sweep over both lists of flips: the value of a column is whether it is in the first region
//! and whether it is in the second. XOR asks for no columns: its flips are those of both regions, where those that cancel
//! are left out, and one walk over both lists finds them.
#![tactic(auto)]

mod booleans;
mod both;
mod combine;
mod meeting;
mod operation;
#[cfg(test)]
mod tests;

pub use booleans::{and, not, or, xor};
