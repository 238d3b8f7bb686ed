//! One operation, from its claim to its end.

ghost use Rattle.std.specs.Prelude.{◌≡◌, ◌+◌};
ghost use Rattle.layer_model.specs.Wirings.{reader_count};
ghost use Rattle.ledger_history.specs.Enabled.{AllFinishedBelow};
ghost use Rattle.ledger_core.specs.Jobs.{setup_for};
ghost use Rattle.ledger_core.specs.Machines.{SeatAgrees, IsIdle};
ghost use Rattle.ledger_core.specs.declared.condition.Condition.{Condition};
ghost use Rattle.layer_workers.specs.Turns.{Turned};
ghost use Rattle.layer_workers.specs.Working.Alone.{IsAlone, Worked};

use crate::compute::{Computed, compute};
use drc_ports::Gate;
use ledger_core::{ChargeAnswer, Claim, Given, Job, Published, Seat, State, Ticket};
use std::alloc::{AllocError, Global};

/// How a worker's turn went.
#[derive(Debug, Drop)]
pub enum Turn {
    /// It has claimed an operation, and is idle again.
    Worked(Seat),
    /// Every operation is finished.
    Done,
    /// Somebody has stopped the run.
    Stopped,
}

/// One turn of a worker while nobody is busy: an operation from its claim to its end, if any is left. It waits for nobody.
/// The gate is passed once, after the claim. The worker stops the run only where there was no memory for the layer.
pub fn take_turn<J: Job, G: Gate>(alloc: Global, state: &mut State<J>, seat: Seat, gate: &G) -> Turn
    requires agrees { SeatAgrees state.old seat }
    requires idle { IsIdle state.old }
    ensures { Turned (setup_for J.wiring J.cost_of J.budget J.workers) seat.worker state.old result state.new }
{
    match state.claim(seat) {
        Claim::Work(ticket) => Turn::Worked(work(alloc, state, ticket, gate)),
        Claim::NotYet(_) => unreachable!(),
        Claim::Done(_) => Turn::Done,
        Claim::Stopped(_) => Turn::Stopped,
    }
}

/// A claimed operation to its end. Where there is no memory for its layer the worker stops the run.
fn work<J: Job, G: Gate>(alloc: Global, state: &mut State<J>, ticket: Ticket<J>, gate: &G) -> Seat
    requires alone { IsAlone (setup_for J.wiring J.cost_of J.budget J.workers) ticket.worker state.old (Condition.Claimed ticket.op) }
    requires lowest { AllFinishedBelow (setup_for J.wiring J.cost_of J.budget J.workers) state.old.events ticket.op }
    ensures { Worked (setup_for J.wiring J.cost_of J.budget J.workers) ticket.worker state.old result state.new }
{
    gate.pass(ticket.op());
    match compute(alloc, &**state.job(), &ticket) {
        Ok(computed) => finish(state, ticket, computed),
        Err(AllocError) => state.stop(ticket),
    }
}

/// A computed operation to its end.
fn finish<J: Job>(state: &mut State<J>, ticket: Ticket<J>, computed: Computed<J>) -> Seat
    requires alone { IsAlone (setup_for J.wiring J.cost_of J.budget J.workers) ticket.worker state.old (Condition.Claimed ticket.op) }
    requires lowest { AllFinishedBelow (setup_for J.wiring J.cost_of J.budget J.workers) state.old.events ticket.op }
    requires copies { computed.copies ≡ record { op = ticket.op; count = reader_count J.wiring ticket.op + 1 } }
    requires cost { computed.cost ≡ J.cost_of ticket.op }
    ensures { Worked (setup_for J.wiring J.cost_of J.budget J.workers) ticket.worker state.old result state.new }
{
    let Computed { copies, cost } = computed;
    match state.charge(ticket, cost) {
        ChargeAnswer::Charged(charged) => match state.publish(charged, copies) {
            Given::Idle(seat) => seat,
            Given::More(published) => release_all(state, published),
        },
        ChargeAnswer::NotYet(_ticket) => unreachable!(),
        ChargeAnswer::Stopped(seat) => seat,
    }
}

/// Releases the places of a published operation that are still out.
fn release_all<J: Job>(state: &mut State<J>, published: Published<J>) -> Seat
    requires { IsAlone (setup_for J.wiring J.cost_of J.budget J.workers) published.worker state.old (Condition.Published published.op published.released) }
    ensures { Worked (setup_for J.wiring J.cost_of J.budget J.workers) published.worker state.old result state.new }
{
    match state.release(published) {
        Given::Idle(seat) => seat,
        Given::More(published) => release_all(state, published),
    }
}
