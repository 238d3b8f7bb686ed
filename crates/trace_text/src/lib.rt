//! A run as text, line by line, and read again.
//!
//! A trace has a title, three numbers, a cost for each operation, the events of a run that nobody stopped, oldest first,
//! and a last line:
//!
//! ```text
//! DRCTRACE 1
//! operations 2
//! workers 4
//! budget 0
//! cost 0 4
//! cost 1 4
//! claim 3 0
//! ..
//! end
//! ```
//!
//! [`print_trace`] makes this text of a history, and [`read_trace`] gives back what it tells, or says at which line the
//! text isn't one of a trace. Whether the events were allowed is another question, which `trace_replay` answers.
#![tactic(auto)]

mod fault;
mod front;
mod laws;
mod next;
mod place;
mod print;
mod read;
mod trace;

pub use fault::{TraceFault, TraceReason, TraceRefusal};
pub use front::{Front, read_front};
pub use laws::{a_trace_or_a_fault, one_trace_a_text, spelled_or_at_fault};
pub use place::LinePlace;
pub use print::print_trace;
pub use read::{LONGEST_TRACE, read_trace};
pub use trace::Trace;

#[cfg(test)]
mod tests;
