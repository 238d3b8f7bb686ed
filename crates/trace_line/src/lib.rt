//! The lines of a trace, read and printed one by one.
//!
//! A trace is the text of what a run did, one event a line:
//!
//! ```text
//! DRCTRACE 1          the title
//! operations 2        how many operations there are
//! workers 4
//! budget 0
//! cost 0 4            operation 0 costs 4
//! cost 1 4
//! claim 3 0           worker 3 claims operation 0
//! charge 3 0 4        .. and charges 4 for it
//! publish 3 0
//! ..
//! release 1 1 0       worker 1 releases place 0 of operation 1
//! end
//! ```
//!
//! Here a line is read without regard to its place among the others; the order of lines is a matter of `trace_text`.
#![tactic(auto)]

mod laws;
mod line;
mod number;
mod print;
mod read;
mod word;

pub use laws::one_line_at_a_front;
pub use line::Line;
pub use print::push_line;
pub use read::take_line;

#[cfg(test)]
mod tests;
