//! What a worker is at.

/// What a worker is at, as a state has it: idle, or with an operation claimed, charged, or published with so many places
/// released.
#[derive(Clone, Copy, Debug, PartialEq, Eq)]
pub enum Condition {
    Idle,
    Claimed { op: u32 },
    Charged { op: u32 },
    Published { op: u32, released: u32 },
}
