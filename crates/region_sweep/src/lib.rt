//! The sweep under the operations on squares: it goes up over two lists of flips, and touches only the columns that
//! change.
//!
//! ```text
//!    first  flips ──┐                                      pieces with the old value       ends where inside begins
//!                   ├─ line by line ── row state ── changed ─────────────────────── inside ── or ends ── flips of the line
//!    second flips ──┘                                      pieces with the new value
//! ```
//!
//! An [`Evaluator`] says what a flip of the first and of the second list does to the value of a column, and which values
//! count as inside. A square is in the region that a sweep gives exactly where the value counts as inside that its
//! column has after the flips at or below its row. Nothing depends on the order of the flips of a line.
#![tactic(auto)]

mod by_list;
mod ends;
mod evaluator;
mod line;
mod upwards;

pub use evaluator::Evaluator;
pub use upwards::sweep;
