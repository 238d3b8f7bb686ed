//! A trace is judged by a wiring: whether each of its events was allowed, and whether the run went to its end.
//!
//! ```text
//! text ── trace_text ── header, costs, events ── one event after another in a table ── what the run came to,
//!                                                                                      or the first line at fault
//! ```
#![tactic(auto)]

mod header;
mod judge;
mod laws;
mod rerun;
mod summary;

pub use judge::replay;
pub use laws::{a_printed_history_is_replayed, one_first_fault, replayed_has_no_fault};
pub use summary::Summary;

#[cfg(test)]
mod tests;
