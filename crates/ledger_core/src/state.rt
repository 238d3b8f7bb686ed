//! The state of a run.

ghost use Rattle.std.specs.Prelude.{◌≡◌, ◌⊎◌, ◌↔◌, ℕ, ◌<◌, ◌≤◌, List, [], length, replicate, true, None, Some, slice_get, slice_index, is_some, IsTrue, IfOk, IfSome};
ghost use Rattle.layer_model.specs.Wirings.{IsWiring};
ghost use Rattle.ledger_history.specs.Histories as history;
ghost use Rattle.ledger_history.specs.Histories.{IsComplete};
ghost use Rattle.ledger_history.specs.Enabled.{Legal};
ghost use Rattle.ledger_core.specs.Jobs.{setup_for};
ghost use Rattle.ledger_core.specs.Machines.{SeatAgrees, TicketAgrees, ChargedAgrees, PublishedAgrees, IsIdle, Fits};
ghost use Rattle.ledger_core.specs.declared.condition.Condition.{Condition};

use crate::condition::Condition;
use crate::job::Job;
use crate::shelf::Shelf;
use crate::tokens::{Charged, Published, Seat, Ticket};
use layer_model::{Wiring, reader_counts};
use ledger_history::Event;
use ledger_table::Table;
use std::alloc::{AllocError, Global};
use std::marker::Model;
use std::sync::Arc;

/// The state of a run: its events, what each worker is at, and the layers that are live. Contracts see the events, newest
/// first, and the workers' conditions.
#[derive(Drop)]
pub struct State<J: Job> {
    pub(crate) job: Arc<J>,
    pub(crate) table: Table,
    pub(crate) readers: Vec<u64>,
    pub(crate) shelf: Shelf<J>,
    pub(crate) crew: Vec<Condition>,
}

impl<J: Job> Model for State<J> {
    ghost use Rattle.ledger_core.specs.Machines.{Machine};

    ghost Value = { Machine };

    ghost use Rattle.ledger_core.specs.Jobs.{setup_for};
    ghost use Rattle.ledger_core.specs.States.{IsState};

    ghost view = { λ t. record { events = t.table.events; crew = t.crew.items } };

    ghost invariant = { λ t. IsState (setup_for J.wiring J.cost_of J.budget J.workers) t.table t.readers.items t.shelf t.crew.items };
}

/// A state, with a seat for each of its workers, by number.
#[derive(Drop)]
pub struct Start<J: Job> {
    pub state: State<J>,
    pub seats: Vec<Seat>,
}

impl<J: Job> State<J> {
    /// The state in which nothing has happened, for the run that the job's type names. It takes all memory that the
    /// state needs, and fails only for want of it.
    pub fn new(
        alloc: Global,
        job: Arc<J>,
        wiring: &Wiring,
        budget: u64,
        workers: u32,
    ) -> Result<Start<J>, AllocError>
        requires wiring { wiring.now ≡ J.wiring }
        requires budget { budget ≡ J.budget }
        requires workers { workers ≡ J.workers }
        requires some { 0 < workers }
        requires few { workers ≤ 64 }
        ensures state { IfOk result (λ t. t.state ≡ record { events = []; crew = replicate workers Condition.Idle }) }
        ensures seats { IfOk result (λ t. length t.seats.items ≡ workers) }
        ensures numbers { IfOk result (λ t. (w : ℕ) (seat : Seat) → slice_get t.seats.items w ≡ Some seat → seat.worker ≡ w) }
    {
        let table = Table::new(alloc, wiring, budget, workers)?;
        let readers = reader_counts(alloc, wiring.list())?;
        let shelf = Shelf::new(alloc, wiring.list().len() as u32)?;
        let crew = idle_crew(alloc, workers)?;
        let seats = all_seats(alloc, workers)?;
        let state = State {
            job,
            table,
            readers,
            shelf,
            crew,
        };
        Ok(Start { state, seats })
    }

    /// The job.
    pub fn job(&self) -> &Arc<J> {
        &self.job
    }

    /// The events, newest first.
    pub fn events(&self) -> &[Event]
        ensures same { result.now ≡ self.now.events }
        ensures wiring { IsWiring J.wiring }
        ensures legal { Legal (setup_for J.wiring J.cost_of J.budget J.workers) self.now.events }
    {
        self.table.events()
    }

    /// The layer of the operation, exactly while it is live.
    pub fn layer(&self, op: u32) -> Option<&J::Layer>
        ensures live { is_some result ≡ history.is_live (setup_for J.wiring J.cost_of J.budget J.workers) self.now.events op }
        ensures right { IfSome result (λ l. J.right op l.now) }
    {
        if (op as usize) < self.readers.len() {
            self.shelf.layer(op)
        } else {
            None
        }
    }

    /// Whether every operation is finished.
    pub fn is_finished(&self) -> bool
        ensures { IsTrue result ↔ IsComplete (setup_for J.wiring J.cost_of J.budget J.workers) self.now.events }
    {
        self.table.is_complete()
    }

    /// Whether somebody has stopped the run.
    pub fn is_stopped(&self) -> bool
        ensures { result ≡ history.is_stopped self.now.events }
    {
        self.table.is_stopped()
    }

    /// The sum of the charges of operations that aren't let go.
    pub fn total(&self) -> u128
        ensures { result ≡ history.total (setup_for J.wiring J.cost_of J.budget J.workers) self.now.events }
    {
        self.table.total()
    }

    /// Whether the worker is idle, as the seat says.
    pub fn agrees_seat(&self, seat: &Seat) -> bool
        ensures agrees { IsTrue result ↔ SeatAgrees self.now seat.now }
        ensures fits { IsTrue result → Fits (setup_for J.wiring J.cost_of J.budget J.workers) self.now.events seat.now.worker Condition.Idle }
    {
        self.is_at(seat.worker, Condition::Idle)
    }

    /// Whether the worker is at its ticket's operation.
    pub fn agrees_ticket(&self, ticket: &Ticket<J>) -> bool
        ensures agrees { IsTrue result ↔ TicketAgrees self.now ticket.now }
        ensures fits { IsTrue result → Fits (setup_for J.wiring J.cost_of J.budget J.workers) self.now.events ticket.now.worker (Condition.Claimed ticket.now.op) }
    {
        self.is_at(ticket.worker, Condition::Claimed { op: ticket.op })
    }

    /// Whether the worker is at the operation that it has charged.
    pub fn agrees_charged(&self, charged: &Charged<J>) -> bool
        ensures agrees { IsTrue result ↔ ChargedAgrees self.now charged.now }
        ensures fits { IsTrue result → Fits (setup_for J.wiring J.cost_of J.budget J.workers) self.now.events charged.now.worker (Condition.Charged charged.now.op) }
    {
        self.is_at(charged.worker, Condition::Charged { op: charged.op })
    }

    /// Whether the worker is at the operation that it has published, with so many places released.
    pub fn agrees_published(&self, published: &Published<J>) -> bool
        ensures agrees { IsTrue result ↔ PublishedAgrees self.now published.now }
        ensures fits { IsTrue result → Fits (setup_for J.wiring J.cost_of J.budget J.workers) self.now.events published.now.worker (Condition.Published published.now.op published.now.released) }
    {
        let at = Condition::Published {
            op: published.op,
            released: published.released,
        };
        self.is_at(published.worker, at)
    }

    /// Whether no worker is busy.
    pub fn is_idle(&self) -> bool
        ensures { IsTrue result ↔ IsIdle self.now }
    {
        all_idle(&self.crew)
    }

    fn is_at(&self, worker: u32, condition: Condition) -> bool
        ensures at { IsTrue result ↔ (slice_get self.now.crew worker ≡ Some condition) }
        ensures fits { IsTrue result → Fits (setup_for J.wiring J.cost_of J.budget J.workers) self.now.events worker condition }
    {
        (worker as usize) < self.crew.len() && self.crew[worker as usize] == condition
    }
}

fn all_idle(crew: &[Condition]) -> bool
    ensures { IsTrue result ↔ ((w : ℕ) (c : Condition) → slice_get crew.now w ≡ Some c → c ≡ Condition.Idle) }
{
    for at in crew {
        if *at != Condition::Idle {
            return false;
        }
    }
    true
}

fn idle_crew(alloc: Global, workers: u32) -> Result<Vec<Condition>, AllocError>
    ensures { IfOk result (λ crew. crew.items ≡ replicate workers Condition.Idle) }
{
    Ok(vec![in alloc; Condition::Idle; workers as usize]?)
}

fn all_seats(alloc: Global, workers: u32) -> Result<Vec<Seat>, AllocError>
    ensures all { IfOk result (λ seats. length seats.items ≡ workers) }
    ensures numbers { IfOk result (λ seats. (w : ℕ) (seat : Seat) → slice_get seats.items w ≡ Some seat → seat.worker ≡ w) }
{
    let mut seats = Vec::new(alloc);
    for worker in 0..workers {
        seats.push(Seat { worker })?;
    }
    Ok(seats)
}
