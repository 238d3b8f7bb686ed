//! What a run came to.

/// The number of operations and of events of a run, and its greatest total.
#[derive(Clone, Copy, Debug, PartialEq, Eq)]
pub struct Summary {
    pub operations: u32,
    pub events: u64,
    pub peak: u128,
}
