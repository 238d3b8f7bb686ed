//! What a run leaves.

ghost use Rattle.std.specs.Prelude.{◌≡◌, length, reverse, is_some, IfSome};
ghost use Rattle.layer_model.specs.Wirings.{is_reported};
ghost use Rattle.ledger_history.specs.Histories.{IsComplete};
ghost use Rattle.ledger_record.specs.Records.{IsCompleteFor};
ghost use Rattle.ledger_core.specs.Jobs.{setup_for};
ghost use Rattle.ledger_core.specs.Endings.{IsRecordOf};

use crate::job::Job;
use crate::shelf::Shelf;
use crate::state::State;
use ledger_record::History;
use ledger_table::Table;
use std::marker::Model;

/// The layers that a finished run reports.
#[derive(Drop)]
pub struct Reported<J: Job> {
    shelf: Shelf<J>,
}

impl<J: Job> Model for Reported<J> {
    ghost use Rattle.std.specs.Prelude.{List};
    ghost use Rattle.ledger_core.specs.Tokens.{Stock};
    ghost use Rattle.ledger_core.specs.Endings.{ShowsReported};

    ghost Value = { List Stock };

    ghost view = { λ r. r.shelf };

    ghost invariant = { λ r. ShowsReported J.wiring r.shelf };
}

impl<J: Job> Reported<J> {
    /// The layer of the operation, exactly where it is reported.
    pub fn layer(&self, op: u32) -> Option<&J::Layer>
        ensures reported { is_some result ≡ is_reported J.wiring op }
        ensures right { IfSome result (λ l. J.right op l.now) }
    {
        if (op as usize) < self.shelf.len() {
            self.shelf.layer(op)
        } else {
            None
        }
    }
}

/// A finished run: the layers that it reports, and its history.
#[derive(Drop)]
pub struct Ended<J: Job> {
    pub reported: Reported<J>,
    pub history: History,
}

impl<J: Job> State<J> {
    /// The reported layers and the history of a finished run. It takes no memory.
    pub fn collect(self) -> Ended<J>
        requires { IsComplete (setup_for J.wiring J.cost_of J.budget J.workers) self.events }
        ensures history { IsRecordOf (setup_for J.wiring J.cost_of J.budget J.workers) self.events result.history }
        ensures complete { IsCompleteFor J.wiring result.history }
    {
        let State {
            job: _,
            table,
            readers: _,
            shelf,
            crew: _,
        } = self;
        let history = record_of(table);
        let reported = Reported { shelf };
        Ended { reported, history }
    }

    /// The history of a run, wherever it stands. It takes no memory.
    pub fn into_history(self) -> History
        ensures { IsRecordOf (setup_for J.wiring J.cost_of J.budget J.workers) self.events result }
    {
        let State {
            job: _,
            table,
            readers: _,
            shelf: _,
            crew: _,
        } = self;
        record_of(table)
    }
}

fn record_of(table: Table) -> History
    ensures operations { result.operations ≡ length table.wires }
    ensures workers { result.workers ≡ table.workers }
    ensures budget { result.budget ≡ table.budget }
    ensures events { result.events.items ≡ reverse table.events }
{
    let operations = table.wires().len() as u32;
    let workers = table.workers();
    let budget = table.budget();
    let events = table.into_events();
    History {
        operations,
        workers,
        budget,
        events,
    }
}
