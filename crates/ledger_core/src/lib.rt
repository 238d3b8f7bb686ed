//! The ledger: a state that shares counted layers among workers under a budget.
//!
//! A [`State`] keeps the events of a run and holds each layer exactly while it is live. A worker goes round with tokens,
//! each of which is spent by one call and can't be copied:
//!
//! ```text
//!            claim              charge              publish              release ..
//!   Seat ───────────▶ Ticket ───────────▶ Charged ───────────▶ Published ───────────▶ Seat
//!                       │ stop, or the run was stopped            (an operation without inputs: at once)
//!                       ▼
//!                      Seat
//! ```
//!
//! What is fixed for a run is named by the type of its [`Job`].
#![tactic(auto)]

mod answers;
mod calls;
mod condition;
mod copies;
mod ended;
mod job;
mod shelf;
mod state;
mod tokens;

pub use answers::{ChargeAnswer, Claim, Given};
pub use condition::Condition;
pub use copies::{Copies, Loan};
pub use ended::{Ended, Reported};
pub use job::Job;
pub use state::{Start, State};
pub use tokens::{Charged, Published, Seat, Ticket};

#[cfg(test)]
mod tests;
