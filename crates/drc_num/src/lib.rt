//! Exact fractions of bounded size, in which the values of a deck are computed.
//!
//! ```text
//!     0.1 + 0.2 = 1/10 + 1/5 = 3/10        a fraction is kept in lowest terms
//!     -7 rem 2 = -1                        the quotient is rounded toward 0
//!     2^-62 * 2^-1                         doesn't fit: its den would be above 2^62
//! ```
//!
//! Each call answers the exact number, or `None` exactly where that has no fraction whose parts are at most 2^62. No
//! call takes memory, and none overflows: products of two parts have at most 124 bits.
#![tactic(auto)]

mod division;
mod frac;
mod gcd;
mod laws;
mod power;

pub use frac::Frac;
pub use laws::{exact_is_the_fraction, one_fraction_a_number};

#[cfg(test)]
mod tests;
