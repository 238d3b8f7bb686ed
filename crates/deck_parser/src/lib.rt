//! Reads a deck: the tree that a text spells, or the first fact for which it is refused.
//!
//! ```text
//! text ─ build ─┬─ statements ─ those that must be there, those that stand once ─ deck
//!               └─ no statements ─ the walk over the tokens ─ refusal
//! ```
//!
//! A text that is a deck is gone over once; only one that isn't is gone over again, for the reason.
#![tactic(auto)]

mod deck;
mod laws;

pub use deck::parse;
pub use laws::{one_text_answer, some_text_answer};

#[cfg(test)]
mod tests;
