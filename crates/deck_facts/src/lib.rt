//! The first of the facts for which a deck is refused.
//!
//! ```text
//! 12  ValueRange          5     the first: it stands before the others
//! 40  UndefinedName       9     at one offset the lesser number comes first
//! 40  LayerCycle          17
//! ```
//!
//! Some kinds of facts are found apart from others. Each finder gives the first of its own, and of these the first is
//! taken.
#![tactic(auto)]

mod first;

pub use first::{comes_before, first_in, first_of};

#[cfg(test)]
mod tests;
