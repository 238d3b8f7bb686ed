//! Facts that every crate needs, and the few words in which they are said: of lists, of either-or, of the numbers from
//! one up to another, and of steps each of which may fail.
//!
//! ```text
//! wanted   { 2, 3, 5, 7 }
//! items    2 < 3 < 5 < 7       the list that holds them in order: exactly one list does
//! ```
#![tactic(auto)]

mod same_members;

pub use same_members::same_members_same_list;
