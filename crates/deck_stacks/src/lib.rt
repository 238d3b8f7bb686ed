//! The stacks of parts that may follow the tokens of a deck that were read: a walk starts with the rule of decks alone,
//! and goes on token by token.
//!
//! A stack is a list of parts of the grammar, the next on top. A token leads from a stack to what is left of it, once the
//! rules on top are opened until a token of its kind stands there; from one stack it may lead to several, or to none:
//!
//! ```text
//! let stacks = Stacks::start(alloc)?;           statements
//! stacks.next(alloc, Kind::Name)?               = layer statements
//!                                               { items } statements
//! stacks.next(alloc, Kind::Number)?             none: a number doesn't begin a statement
//! ```
//!
//! Where none is left the last token stands wrong, and a deck may end where one of them may spell nothing. So a walk over
//! stacks finds the first wrong token of a text, and it needs no tokens ahead.
#![tactic(auto)]

mod distances;
mod laws;
mod layers;
mod opening;
mod part;
mod stack;
mod stacks;
mod statements;
mod table;
mod values;

pub use laws::{stacks_follow_tokens, stacks_tell_decks};
pub use stacks::Stacks;

#[cfg(test)]
mod tests;
