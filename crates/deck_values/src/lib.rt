//! The values of a deck, wherever they stand, in the order of its text: each with the place from where its names are
//! seen, and with what the place wants at which it stands.
//!
//! ```text
//! PRECISION 1000             1000   everywhere   a precision
//! VARIABLE W 0.2             0.2    everywhere   anything
//! A { X = SIZE M1 BY W       W      check 0      a distance to SIZE by
//!     INT X < 0.1 ABUT < 90  0.1    check 0      a distance
//!                            90     check 0      what ABUT takes
//!     ANGLE X == 90 }        90     check 0      a right angle
//! ```
//!
//! The numbers of LAYER and LAYER MAP are no values, since no name and no sign stands in them: they have a list of their
//! own.
#![tactic(auto)]

mod bounds;
mod laws;
mod layer;
mod listing;
mod numbers;
mod placed;
mod push;

pub use laws::places_are_of_the_deck;
pub use listing::values;
pub use numbers::layer_numbers;
pub use placed::{PlacedValue, Wanted};

#[cfg(test)]
mod tests;
