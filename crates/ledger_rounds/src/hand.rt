//! A worker of a run in tests, which makes one call of the state at a time.

ghost use Rattle.std.specs.Prelude.{◌≡◌, ◌+◌, IfOk};
ghost use Rattle.layer_model.specs.Wirings.{reader_count};

use ledger_core::{
    ChargeAnswer, Charged, Claim, Copies, Given, Job, Published, Seat, State, Ticket,
};
use std::alloc::{AllocError, Global};
use std::process::Abort;

/// A charged operation, with the copies of its layer.
pub struct Made<J: Job> {
    charged: Charged<J>,
    copies: Copies<J>,
    ghost fits: { copies ≡ record { op = charged.op; count = reader_count J.wiring charged.op + 1 } },
}

/// What a worker has in its hands.
pub enum Hand<J: Job> {
    Idle(Seat),
    Claimed(Ticket<J>),
    Charged(Made<J>),
    Published(Published<J>),
}

/// The worker's next call.
pub fn next_call<J: Job>(
    rt: &impl Abort,
    alloc: Global,
    state: &mut State<J>,
    hand: Hand<J>,
) -> Hand<J> {
    match hand {
        Hand::Idle(seat) => claim(rt, state, seat),
        Hand::Claimed(ticket) => charge(rt, alloc, state, ticket),
        Hand::Charged(made) => publish(rt, state, made),
        Hand::Published(published) => release(rt, state, published),
    }
}

fn claim<J: Job>(rt: &impl Abort, state: &mut State<J>, seat: Seat) -> Hand<J> {
    assert!(rt; state.agrees_seat(&seat));
    match state.claim(seat) {
        Claim::Work(ticket) => Hand::Claimed(ticket),
        Claim::NotYet(seat) => Hand::Idle(seat),
        Claim::Done(seat) => Hand::Idle(seat),
        Claim::Stopped(seat) => Hand::Idle(seat),
    }
}

fn charge<J: Job>(
    rt: &impl Abort,
    alloc: Global,
    state: &mut State<J>,
    ticket: Ticket<J>,
) -> Hand<J> {
    assert!(rt; state.agrees_ticket(&ticket));
    match computed(alloc, &**state.job(), &ticket) {
        Ok((copies, cost)) => match state.charge(ticket, cost) {
            ChargeAnswer::Charged(charged) => Hand::Charged(Made { charged, copies }),
            ChargeAnswer::NotYet(ticket) => Hand::Claimed(ticket),
            ChargeAnswer::Stopped(seat) => Hand::Idle(seat),
        },
        Err(AllocError) => rt.abort(),
    }
}

/// The copies of the layer of the ticket's operation, and what the layer costs.
fn computed<J: Job>(
    alloc: Global,
    job: &J,
    ticket: &Ticket<J>,
) -> Result<(Copies<J>, u64), AllocError>
    ensures copies { IfOk result (λ x. x.0 ≡ record { op = ticket.now.op; count = reader_count J.wiring ticket.now.op + 1 }) }
    ensures cost { IfOk result (λ x. x.1 ≡ J.cost_of ticket.now.op) }
{
    let op = ticket.op();
    let layer = job.make(op, ticket.first(), ticket.second())?;
    let cost = job.cost(op, &layer)?;
    let copies = ticket.copies(alloc, layer)?;
    Ok((copies, cost))
}

fn publish<J: Job>(rt: &impl Abort, state: &mut State<J>, made: Made<J>) -> Hand<J> {
    let Made { charged, copies } = made;
    assert!(rt; state.agrees_charged(&charged));
    given_hand(state.publish(charged, copies))
}

fn release<J: Job>(rt: &impl Abort, state: &mut State<J>, published: Published<J>) -> Hand<J> {
    assert!(rt; state.agrees_published(&published));
    given_hand(state.release(published))
}

fn given_hand<J: Job>(given: Given<J>) -> Hand<J> {
    match given {
        Given::More(published) => Hand::Published(published),
        Given::Idle(seat) => Hand::Idle(seat),
    }
}

/// The seat of a worker that is idle.
pub fn idle_seat<J: Job>(rt: &impl Abort, hand: Hand<J>) -> Seat {
    match hand {
        Hand::Idle(seat) => seat,
        Hand::Claimed(_ticket) => rt.abort(),
        Hand::Charged(_made) => rt.abort(),
        Hand::Published(_published) => rt.abort(),
    }
}

/// The worker's next call, which has to be one that leaves the operation claimed.
pub fn claimed<J: Job>(
    rt: &impl Abort,
    alloc: Global,
    state: &mut State<J>,
    hand: Hand<J>,
) -> Ticket<J> {
    match next_call(rt, alloc, state, hand) {
        Hand::Claimed(ticket) => ticket,
        Hand::Idle(_seat) => rt.abort(),
        Hand::Charged(_made) => rt.abort(),
        Hand::Published(_published) => rt.abort(),
    }
}
