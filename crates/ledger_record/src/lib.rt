//! The record of a run: what was fixed for it, and what its workers did, oldest event first.
//!
//! The laws of `ledger_history` read a history backwards, its newest event first. [`History`] keeps the events as they
//! came, and its *past* is that list: `past` of `specs/Records`.
#![tactic(auto)]

mod history;
mod laws;

pub use history::History;
pub use laws::a_record_grows_at_its_end;
