//! What is known of a run.

use ledger_history::Event;

/// The number of operations, the number of workers and the budget of a run, and its events, oldest first.
#[derive(Debug, Drop, PartialEq, Eq)]
pub struct History {
    pub operations: u32,
    pub workers: u32,
    pub budget: u64,
    pub events: Vec<Event>,
}
