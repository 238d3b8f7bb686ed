//! What the variables of a deck are worth, and to what its values come by that.
//!
//! ```text
//! VARIABLE A B + 1        3
//! VARIABLE B 2            2
//! VARIABLE C C            nothing: it leads back to itself
//! VARIABLE D 1 / (B - 2)  nothing: a division by 0, at the sign
//! VARIABLE E D + 1        nothing, and that is no fault of its own
//! ```
//!
//! A variable may be used before it is defined. Definitions are taken in an order in which each stands behind those that
//! it uses, so each value is worked out once.
#![tactic(auto)]

mod evaluation;
mod known;
mod laws;
mod worths;

pub use evaluation::evaluate_at;
pub use laws::{none_in_circles, one_worth, worth_or_fault};
pub use worths::worths_of;

#[cfg(test)]
mod tests;
