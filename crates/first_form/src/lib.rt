//! Decks of the first form: those whose check is computed.
//!
//! ```text
//! LAYOUT SYSTEM GDSII
//! LAYOUT PATH "chip.gds"
//! LAYOUT PRIMARY TOP
//! DRC RESULTS DATABASE "chip.db" ASCII
//! LAYER M1 1
//! LAYER M2 2
//! SHORT { @ short edge
//!     LENGTH M1 < 0.2 }
//! ```
//!
//! A deck is told by its tree. So it is of the first form however it is spelled.
#![tactic(auto)]

mod digits;
mod laws;
mod layer;
mod served;
mod statement;
mod value;

pub use laws::{each_first_form, one_first_form};
pub use served::{FirstDeck, LIMIT, PRECISION, first_deck};

#[cfg(test)]
mod tests;
