//! Builds the tree of a deck from its tokens, one function for each rule of the grammar.
//!
//! Each function reads what its rule spells from the cursor on, and answers its tree:
//!
//! ```text
//! layout_path = LAYOUT PATH file     layout: takes LAYOUT and PATH, calls file
//! addends     = + product addends    addends: a turn for each sign
//! ```
//!
//! A text that spells no deck isn't built, and why isn't told here.
#![tactic(auto)]

mod bounds;
mod builder;
mod distance;
mod infix;
mod layer;
mod lists;
mod options;
mod statement;
mod tokens;
mod value;

pub use builder::build;

#[cfg(test)]
mod tests;
