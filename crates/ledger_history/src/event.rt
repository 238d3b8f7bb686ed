//! The events of a run.

/// What a worker does to the ledger. Each event is made whole under the ledger's one lock.
#[derive(Clone, Copy, Debug, PartialEq, Eq)]
pub enum Event {
    /// The worker takes an operation all of whose inputs are published.
    Claim { worker: u32, op: u32 },
    /// The worker has computed the operation's layer, and its cost is counted from now on.
    Charge { worker: u32, op: u32, cost: u64 },
    /// The layer is there for its readers.
    Publish { worker: u32, op: u32 },
    /// The worker gives back the input place of the operation.
    Release { worker: u32, op: u32, place: u32 },
    /// The worker drops the operation that it has claimed, and no operation is claimed or charged from then on.
    Stop { worker: u32 },
}
