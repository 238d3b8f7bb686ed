//! The canonical text of a deck.
//!
//! One statement stands on a line, and in a check one note or item:
//!
//! ```text
//! LAYER M1 1
//! W {
//! @ width of metal 1
//! INT M1 < 0.2 ABUT < 90 SINGULAR
//! }
//! ```
#![tactic(auto)]

mod canonical;
mod distance;
mod layer;
mod limits;
mod statement;
mod value;

pub use canonical::print;

#[cfg(test)]
mod tests;
