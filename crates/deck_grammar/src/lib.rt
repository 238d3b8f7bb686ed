//! The grammar of the deck language: which lists of tokens spell a deck, and which deck that is; which lists of tokens
//! are the front of such a list; and at which token a text that spells no deck is refused, and why.
//!
//! The grammar is a table, one line for each alternative: on the left the parts that stand one after the other, on the
//! right what they spell:
//!
//! ```text
//! layout_path = LAYOUT PATH file     ⟹  LayoutPath
//! plus        = + product addends    ⟹  the product, and the rest
//! ```
#![tactic(auto)]

mod keyword;
mod kind;
mod laws;
mod reading;
mod sameness;
mod sign;
mod singles;
mod words;

pub use keyword::Keyword;
pub use kind::Kind;
pub use laws::{one_answer, one_deck, viable_is_a_front};
pub use reading::{note_text, number_of, without_quotes};
pub use sameness::is_same;
pub use sign::Sign;
pub use singles::{missing, repeated, single_of};
pub use words::{SIGNS, WORDS, kind_of_sign, kind_of_word};

#[cfg(test)]
mod tests;
