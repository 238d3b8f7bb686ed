//! Why a trace is refused.

ghost use Rattle.std.specs.Prelude.{◌≡◌};
ghost use Rattle.trace_text.specs.declared.fault.TraceFault.TheVariants.{Memory};

use std::alloc::{AllocError, AllocFailed};
use thiserror::Error;

/// What is wrong with a trace.
#[derive(Clone, Copy, Debug, PartialEq, Eq)]
pub enum TraceReason {
    /// The text has more than `LONGEST_TRACE` bytes.
    TooLong,
    /// The line isn't of the form for its place, or the text ends before its last line.
    Syntax,
    /// The number of operations isn't that of the wiring, there are no workers or more than 64, or the workers or the
    /// budget aren't those that were asked for.
    HeaderMismatch,
    /// A charge isn't the operation's cost.
    WrongCharge,
    /// The event wasn't allowed after those before it.
    NotEnabled,
    /// The end, while some operation isn't finished.
    Unfinished,
}

/// The first line at which a trace is refused, and why. Lines are counted from 1; a text that is too long is refused at
/// line 0.
#[derive(Clone, Copy, Debug, PartialEq, Eq)]
pub struct TraceRefusal {
    pub line: u64,
    pub reason: TraceReason,
}

/// A trace that wasn't read.
#[derive(Debug, Drop, Error)]
pub enum TraceFault {
    #[error("the trace is refused")]
    Refused(TraceRefusal),
    #[error("out of memory")]
    Memory,
}

impl From<AllocError> for TraceFault {
    ghost from_gives = { λ _ e. e ≡ Memory };

    fn from(_error: AllocError) -> Self {
        TraceFault::Memory
    }
}

impl<T: Drop> From<AllocFailed<T>> for TraceFault {
    ghost from_gives = { λ _ e. e ≡ Memory };

    fn from(_error: AllocFailed<T>) -> Self {
        TraceFault::Memory
    }
}
