//! The first definition of a deck that repeats a name, and the first that leads back to itself.
//!
//! ```text
//! X = Y AND M1            X leads to Y and back: refused at X
//! Y = X                   so does Y
//! Z = X OR M2             Z leads to X, and not back to itself: no fact of its own
//! VARIABLE A A + 1        A leads to itself at once
//! C { Z = M1 }            the inner Z repeats the outer: both are seen in C
//! ```
#![tactic(auto)]

mod circle;
mod duplicate;
mod flagged;

pub use circle::first_circle;
pub use duplicate::first_duplicate;

#[cfg(test)]
mod tests;
