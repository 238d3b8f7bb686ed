//! The checks of a deck: which of them are selected, and the facts of their names.
//!
//! ```text
//! DRC SELECT CHECK A B
//! DRC UNSELECT CHECK B
//! A { .. }                  number 0: selected
//! B { .. }                  number 1: not selected, since an UNSELECT names it
//! C { .. }                  number 2: not selected, since there is a SELECT and none names it
//! ```
//!
//! SELECT and UNSELECT count for the whole deck, wherever they stand.
#![tactic(auto)]

mod check;
mod check_names;
mod name_set;
mod selected;
mod selection;

pub use check::Check;
pub use check_names::check_name_facts;
pub use selected::selected_checks;

#[cfg(test)]
mod tests;
