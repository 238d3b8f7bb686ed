//! The first reference of a layout that is recursive: it stands in a structure that the primary reaches, and names one
//! that reaches the structure in which it stands.
//!
//! ```text
//! links[0]  1, 2      0 ──▶ 1 ──▶ 3        the primary is 0
//! links[1]  3         │
//! links[2]  3, 4      └───▶ 2 ──▶ 3        2 and 4 stand on a circle: the first recursive reference is the second
//! links[3]                  ▲│             of structure 2
//! links[4]  2               │▼
//!                           └4
//! ```
//!
//! A structure that a recursive reference stands in leads back to itself, which an order of definitions tells of all
//! structures at once. Only the references of the first of them that is reached are looked at.
#![tactic(auto)]

mod back;
mod circle;
mod first;
mod uses;

pub use first::recursive;

#[cfg(test)]
mod tests;
