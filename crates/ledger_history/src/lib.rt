//! The ledger's histories: what a list of events says, when an event may happen, and what holds of every legal history.
//!
//! Workers share layers that are counted under a budget. A layer's life is a few events:
//!
//! ```text
//! worker w   claim i ---- charge i c ---- publish i ------------- release i 0
//!                         the total        others may claim        the places of i's inputs come back
//!                         grows by c       readers of i
//! ```
//!
//! A layer is *live* from its publish on, until it is *let go*: at the release of the last place that reads it, unless
//! it is reported. The *total* is the sum of the charges of operations that aren't let go.
#![tactic(auto)]

mod allowed;
mod event;
mod laws;
pub mod plain;
mod setup;

pub use allowed::{all_finished_below, is_enabled, is_legal, is_next, is_ready};
pub use event::Event;
pub use laws::{
    budget_holds, charges_are_admitted, complete_histories_have_each_event, histories_are_short,
    inputs_stay_live, layers_live_while_read, one_worker_holds, runs_go_on,
};
pub use setup::SetupLists;

#[cfg(test)]
mod tests;
