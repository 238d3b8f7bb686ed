//! What is printed is read again: the laws that join canonical text to the tokens of a text, to the grammar, and to what
//! a text is refused for.
#![tactic(auto)]

mod laws;

pub use laws::{
    canonical_text_has_tokens, canonical_text_is_accepted, canonical_text_spells_the_deck,
    only_places_are_not_printed, places_are_not_printed, the_deck_of_a_text_is_well_formed,
};
