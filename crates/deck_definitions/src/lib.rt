//! The definitions of a deck, in the order of its text.
//!
//! ```text
//! LAYER M1 1               M1   everywhere   the layer number 1
//! X = M1 AND M2            X    everywhere   the layer M1 AND M2
//! A { Y = X OR M1          Y    check 0      the layer X OR M1
//!     Y }
//! VARIABLE W 0.2           W    everywhere   the value 0.2
//! ```
//!
//! Checks are numbered from 0 on, in the deck's order. The name of a check is no definition: checks have names of their
//! own.
#![tactic(auto)]

mod defined;
mod listing;

pub use defined::{Body, Defined};
pub use listing::definitions;

#[cfg(test)]
mod tests;
