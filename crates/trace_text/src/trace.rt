//! What a trace tells.

use ledger_record::History;

/// A run, and what each of its operations costs.
#[derive(Debug, Drop, PartialEq, Eq)]
pub struct Trace {
    pub history: History,
    pub costs: Vec<u64>,
}
