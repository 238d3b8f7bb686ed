//! The tokens of a deck, one at a time.
//!
//! Between tokens stand blanks and comments. A token is the longest spelling of any kind at its place:
//!
//! ```text
//! AREA M1 >=.5 // small
//! ^    ^  ^ ^
//! Word |  | Number
//!      |  Sign
//!      Word
//! ```
//!
//! Where no token can stand, there is a fact: a bad byte, a comment or a text without an end.
#![tactic(auto)]

mod ahead;
mod byte;
mod front;
mod gap;
mod laws;
mod size;
mod token;

pub use ahead::next;
pub use laws::{one_list_of_tokens, tokens_or_a_fact};
pub use size::LONGEST_DECK;
pub use token::{LexFault, Token, TokenKind};

#[cfg(test)]
mod tests;
