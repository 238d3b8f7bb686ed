//! What a line says.

use ledger_history::Event;

/// A line of a trace.
#[derive(Clone, Copy, Debug, PartialEq, Eq)]
pub enum Line {
    /// The title, which names the format.
    Title,
    /// The number of operations.
    Operations(u32),
    /// The number of workers.
    Workers(u32),
    /// The budget.
    Budget(u64),
    /// What an operation costs.
    Cost { op: u32, cost: u64 },
    /// What a worker did. A stop has no line.
    Step(Event),
    /// The last line.
    End,
}
