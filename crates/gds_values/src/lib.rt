//! The data of the records of a GDSII stream: what they must be, and what they say.
//!
//! ```text
//! 00 06 0D 02 00 05       LAYER, two-byte numbers: one, 5
//! 00 06 21 02 00 03       PATHTYPE, which in a PATH is 0, 1, 2 or 4: no good data
//! ```
#![tactic(auto)]

mod good;
mod rule;
mod values;

pub use good::has_good_data;
pub use rule::{Contents, Rule, rule_of};
pub use values::{long_at, number_at, point_at, real_at, without_padding};

#[cfg(test)]
mod tests;
