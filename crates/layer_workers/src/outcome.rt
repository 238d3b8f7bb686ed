//! How a run ends.

use ledger_core::{Ended, Job};
use ledger_record::History;

/// How a run ended.
#[derive(Drop)]
pub enum Outcome<J: Job> {
    /// Every operation is finished: the layers that are reported, and the history.
    Finished(Ended<J>),
    /// Somebody has stopped the run: the history up to there.
    Stopped(History),
}
