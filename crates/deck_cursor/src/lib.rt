//! A cursor over the tokens of a deck. Each is cut from the text as it is reached, and none is kept.
//!
//! What a rule of the grammar spells between two places of the cursor is said by the steps between them, so a parser is
//! right where each of its functions is, and no one speaks of lists of tokens until the text is at its end.
#![tactic(auto)]

mod cursor;
mod laws;
mod lexed;

pub use cursor::{Cursor, Stop, Taken};
pub use laws::steps_are_a_deck;
pub use lexed::{MAX_NESTING, brackets_behind, bytes_of, kind_in, upcoming};

#[cfg(test)]
mod tests;
