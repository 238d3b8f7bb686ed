//! The region that a closed right-angled outline covers: the squares round which it winds.
//!
//! ```text
//!      +-----+                   +-----+         Level steps to the east turn the columns above them once more,
//!      |  +--|--+                |     +--+      steps to the west once less; where the outline crosses itself,
//!      |  |  |  |      covers    |        |      a square may be wound round twice, or not at all.
//!      +--|--+  |                +--+     |
//!         +-----+                   +-----+
//! ```
#![tactic(auto)]

mod cover;
mod form;
mod steps;
mod windings;

pub use cover::wound_region;
pub use form::{is_closed, is_right_angled};

#[cfg(test)]
mod tests;
