//! The text of the results file, as checks and their outputs come.
//!
//! ```text
//! new ── begin ── lines ── lines ── begin ── lines ── done
//!          │        │        │
//!          │        │        └ results of the check's second output, numbered on
//!          │        └ results of its first output
//!          └ a check's name and its notes
//! ```
//!
//! How many results a check found stands before them, so a check's results are kept as text beside the file's until the
//! next check is begun. Of each check no more results become text than its limit allows; all are counted.
#![tactic(auto)]

mod lines;
mod push;
mod results;
#[cfg(test)]
mod tests;

pub use lines::{Lines, lines_edge};
pub use results::{Results, Text};
