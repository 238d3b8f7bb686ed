//! The names that a deck defines, from where each is seen, and for which definition a name stands.
//!
//! ```text
//! X = Y AND M1            0: X, seen everywhere
//! A { Y = M1 OR M2        1: Y, seen in check A (number 0) alone
//!     Y = X               2: Y, seen in check A: a repetition
//!     Y NOT M2 }             here Y stands for 1
//! Y = M2                  3: Y, seen everywhere: a repetition, since in check A two are seen
//! ```
//!
//! A name stands for the first definition that has it and is seen from the place, wherever in the deck that stands.
#![tactic(auto)]

mod definition;
mod names;
mod table;
mod tables;

pub use definition::{Definition, Scope};
pub use names::Names;

#[cfg(test)]
mod tests;
