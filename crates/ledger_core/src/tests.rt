//! A run of a square, token by token.

ghost use Rattle.std.specs.Prelude.{◌≡◌, ◌+◌, [], ◌∷◌, true, false, None, Some};

use crate::{ChargeAnswer, Claim, Given, Job, Seat, Start, State};
use layer_model::{Wire, Wiring};
use std::alloc::{AllocError, Global};
use std::process::Abort;
use std::sync::Arc;
use std::test::Fail;

/// Operation 0, and operation 1 which reads it twice: each layer is its operation's number, and costs 4 more.
#[derive(Drop)]
struct Square {
    extra: u64,
}

impl Job for Square {
    type Layer = u64;

    ghost wiring = { record { first = None; second = None; reported = false } ∷ (record { first = Some 0; second = Some 0; reported = true } ∷ []) };

    ghost budget = { 0 };

    ghost workers = { 2 };

    ghost right = { λ op l. l ≡ op };

    ghost cost_of = { λ op. op + 4 };

    fn make(
        &self,
        op: u32,
        _first: Option<&u64>,
        _second: Option<&u64>,
    ) -> Result<u64, AllocError> {
        Ok(op as u64)
    }

    fn cost(&self, op: u32, _layer: &u64) -> Result<u64, AllocError> {
        Ok(op as u64 + 4)
    }
}

fn start(alloc: Global) -> Result<Option<Start<Square>>, AllocError> {
    let wires = vec![in alloc;
        Wire {
            first: None,
            second: None,
            reported: false
        },
        Wire {
            first: Some(0),
            second: Some(0),
            reported: true
        },
    ]?;
    let job = Arc::new(alloc, Square { extra: 4 })?;
    match Wiring::checked(alloc, wires)? {
        Some(wiring) => Ok(Some(State::new(alloc, job, &wiring, 0, 2)?)),
        None => Ok(None),
    }
}

/// Releases the places of a published operation.
fn release_all(
    rt: &impl Abort,
    state: &mut State<Square>,
    given: Given<Square>,
    most: u32,
) -> Seat {
    match given {
        Given::Idle(seat) => seat,
        Given::More(published) => {
            if most == 0 {
                rt.abort()
            }
            assert!(rt; state.agrees_published(&published));
            let given = state.release(published);
            release_all(rt, state, given, most - 1)
        }
    }
}

/// One operation from its claim to its end, if one is ready.
fn finish_one(rt: &impl Abort, alloc: Global, state: &mut State<Square>, seat: Seat) -> Seat {
    assert!(rt; state.agrees_seat(&seat));
    let ticket = match state.claim(seat) {
        Claim::Work(ticket) => ticket,
        Claim::NotYet(seat) => return seat,
        Claim::Done(seat) => return seat,
        Claim::Stopped(seat) => return seat,
    };
    assert!(rt; state.agrees_ticket(&ticket));
    let op = ticket.op() as u64;
    match ticket.copies(alloc, op) {
        Ok(copies) => match state.charge(ticket, op + 4) {
            ChargeAnswer::Charged(charged) => {
                assert!(rt; state.agrees_charged(&charged));
                let given = state.publish(charged, copies);
                release_all(rt, state, given, 2)
            }
            ChargeAnswer::NotYet(ticket) => {
                assert!(rt; state.agrees_ticket(&ticket));
                state.stop(ticket)
            }
            ChargeAnswer::Stopped(seat) => seat,
        },
        Err(_) => state.stop(ticket),
    }
}

#[test]
fn a_square_over_no_budget(rt: HostRuntime) -> Result<(), Fail> {
    let Start {
        mut state,
        mut seats,
    } = start(rt.alloc())?.ok_or("a wiring")?;
    let seat = seats.pop().ok_or("a seat")?;
    let seat = finish_one(&rt, rt.alloc(), &mut state, seat);
    assert_eq!(rt; state.total(), 4);
    let _seat = finish_one(&rt, rt.alloc(), &mut state, seat);
    assert_eq!(rt; state.total(), 5);
    assert_eq!(rt; state.into_history().events.len(), 8);
    Ok(())
}
