//! An order of definitions in which each stands behind those that it uses, and which of them lead back to themselves.
//!
//! ```text
//! 0 uses 1, 2     0 ──▶ 1 ──▶ 3        listed  3 1 2 0: each behind what it uses, but where that leads back to it
//! 1 uses 3        │                    cyclic  2
//! 2 uses 2, 3     └───▶ 2 ⟲
//! ```
//!
//! A walk goes from use to use. What it has come to and may still lead back is *open*, and is kept in groups: two
//! definitions of one group lead to each other, and each group leads to those behind it. A use that leads back to an open
//! definition makes one group of all from there on. A group all of whose uses are looked at is closed at once.
#![tactic(auto)]

mod leave;
mod listing;
mod look;
mod mark;
mod step;
mod walk;
mod within;

pub use listing::{Ordered, order};
pub use within::are_within;

#[cfg(test)]
mod tests;
