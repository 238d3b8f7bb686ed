//! The workers of a run: they claim operations, compute their layers, and make the events of a state.
//!
//! [`take_turn`] lets a worker do one operation, and [`drive`] all that is left of a run, on the calling thread:
//!
//! ```text
//! claim ── gate ── make, cost, copies ── charge ── publish ── release .. ── claim the next
//!                         │ no memory                              all finished: Finished
//!                         └───── stop ──── Stopped
//! ```
#![tactic(auto)]

mod compute;
mod driver;
mod outcome;
mod turn;

pub use driver::drive;
pub use outcome::Outcome;
pub use turn::{Turn, take_turn};

#[cfg(test)]
mod tests;
