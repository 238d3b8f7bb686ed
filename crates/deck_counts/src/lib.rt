//! What a deck has most of: 4,096 operations, checks and outputs, counted over the whole deck.
//!
//! ```text
//! LAYER M1 1                an operation, at LAYER
//! X = (COPY M1) AND M2      an operation, at AND; COPY is none
//! A { LENGTH X < 1          a check, at A; an output and an operation, both at LENGTH
//!     (INT M1 < 1) }        an output, at the bracket; an operation, at INT
//! ```
//!
//! They are listed by the places at which they stand, in the order of the deck, also where no check uses them.
#![tactic(auto)]

mod check_places;
mod excess;
mod operation_places;
mod output_places;

pub use check_places::checks;
pub use excess::first_excess;
pub use operation_places::operations;
pub use output_places::outputs;

#[cfg(test)]
mod tests;
