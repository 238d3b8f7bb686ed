//! What the calls of a state answer.

use crate::job::Job;
use crate::tokens::{Charged, Published, Seat, Ticket};

/// What a claim answers.
pub enum Claim<J: Job> {
    /// The worker has the lowest ready operation.
    Work(Ticket<J>),
    /// No operation is ready, and some operation isn't finished.
    NotYet(Seat),
    /// Every operation is finished.
    Done(Seat),
    /// Somebody has stopped the run.
    Stopped(Seat),
}

/// What a charge answers.
pub enum ChargeAnswer<J: Job> {
    /// The operation is charged.
    Charged(Charged<J>),
    /// The charge would pass the budget, and a lower operation isn't finished.
    NotYet(Ticket<J>),
    /// Somebody has stopped the run. The operation is dropped.
    Stopped(Seat),
}

/// What a publish and a release answer.
pub enum Given<J: Job> {
    /// The operation has a place that isn't released.
    More(Published<J>),
    /// The operation is finished.
    Idle(Seat),
}
