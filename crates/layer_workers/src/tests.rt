//! One worker drives a square, with memory and without.

ghost use Rattle.std.specs.Prelude.{◌≡◌, ◌+◌, [], ◌∷◌, true, false, None, Some};

use crate::{Outcome, Turn, drive, take_turn};
use drc_ports::Gate;
use layer_model::{Wire, Wiring};
use ledger_core::{Job, Seat, Start, State};
use ledger_history::Event;
use std::alloc::{AllocError, Global};
use std::process::Abort;
use std::sync::Arc;
use std::sync::atomic::{AtomicU32, Ordering};
use std::test::Fail;

/// Operation 0, and operation 1 which reads it twice and is reported. There is no memory for the layer of `without`.
#[derive(Drop)]
struct Square {
    without: u32,
}

impl Job for Square {
    type Layer = u32;

    ghost wiring = { record { first = None; second = None; reported = false } ∷ (record { first = Some 0; second = Some 0; reported = true } ∷ []) };

    ghost budget = { 0 };

    ghost workers = { 2 };

    ghost right = { λ op l. l ≡ op };

    ghost cost_of = { λ op. op + 4 };

    fn make(
        &self,
        op: u32,
        _first: Option<&u32>,
        _second: Option<&u32>,
    ) -> Result<u32, AllocError> {
        if op == self.without {
            Err(AllocError)
        } else {
            Ok(op)
        }
    }

    fn cost(&self, op: u32, _layer: &u32) -> Result<u64, AllocError> {
        Ok(op as u64 + 4)
    }
}

fn start(alloc: Global, without: u32) -> Result<Option<Start<Square>>, AllocError> {
    let wires = vec![in alloc;
        Wire {
            first: None,
            second: None,
            reported: false
        },
        Wire {
            first: Some(0),
            second: Some(0),
            reported: true
        },
    ]?;
    let job = Arc::new(alloc, Square { without })?;
    match Wiring::checked(alloc, wires)? {
        Some(wiring) => Ok(Some(State::new(alloc, job, &wiring, 0, 2)?)),
        None => Ok(None),
    }
}

/// A gate that counts how often it is passed.
#[derive(Drop)]
struct Counter {
    passes: AtomicU32,
}

impl Gate for Counter {
    fn pass(&self, _op: u32) {
        let _before = self.passes.fetch_add(1, Ordering::SeqCst);
    }
}

/// Drives the rest of the run with the seat, and gives how often the gate was passed.
fn driven(
    rt: &impl Abort,
    alloc: Global,
    state: State<Square>,
    seat: Seat,
) -> Result<(Outcome<Square>, u32), AllocError> {
    let gate = Counter {
        passes: AtomicU32::new(0),
    };
    assert!(rt; state.is_idle());
    assert!(rt; state.agrees_seat(&seat));
    let seats = vec![in alloc; seat]?;
    let outcome = drive(alloc, state, seats, &gate);
    Ok((outcome, gate.passes.load(Ordering::SeqCst)))
}

#[test]
fn a_square_is_finished(rt: HostRuntime) -> Result<(), Fail> {
    let Start { state, mut seats } = start(rt.alloc(), 9)?.ok_or("a wiring")?;
    let seat = seats.pop().ok_or("a seat")?;
    let (outcome, passes) = driven(&rt, rt.alloc(), state, seat)?;
    assert_eq!(rt; passes, 2);
    match outcome {
        Outcome::Finished(ended) => {
            assert_eq!(rt; ended.history.events.len(), 8);
            assert!(rt; ended.reported.layer(0).is_none());
            assert_eq!(rt; ended.reported.layer(1).copied(), Some(1));
        }
        Outcome::Stopped(_history) => assert!(rt; false, "there was memory"),
    }
    Ok(())
}

/// The events of a run that is stopped.
fn stopped_events(rt: &impl Abort, outcome: Outcome<Square>) -> Vec<Event> {
    match outcome {
        Outcome::Finished(_ended) => rt.abort(),
        Outcome::Stopped(history) => history.events,
    }
}

#[test]
fn a_layer_without_memory_stops_the_run(rt: HostRuntime) -> Result<(), Fail> {
    let Start { state, mut seats } = start(rt.alloc(), 1)?.ok_or("a wiring")?;
    let seat = seats.pop().ok_or("a seat")?;
    let (outcome, passes) = driven(&rt, rt.alloc(), state, seat)?;
    let want = [
        Event::Claim { worker: 1, op: 0 },
        Event::Charge {
            worker: 1,
            op: 0,
            cost: 4,
        },
        Event::Publish { worker: 1, op: 0 },
        Event::Claim { worker: 1, op: 1 },
        Event::Stop { worker: 1 },
    ];
    let events = stopped_events(&rt, outcome);
    assert_eq!(rt; events.as_slice(), want.as_slice());
    assert_eq!(rt; passes, 2);
    Ok(())
}

#[test]
fn a_stopped_run_is_left_as_it_is(rt: HostRuntime) -> Result<(), Fail> {
    let Start {
        mut state,
        mut seats,
    } = start(rt.alloc(), 0)?.ok_or("a wiring")?;
    let second = seats.pop().ok_or("a seat")?;
    let first = seats.pop().ok_or("a seat")?;
    let gate = Counter {
        passes: AtomicU32::new(0),
    };
    assert!(rt; state.is_idle());
    assert!(rt; state.agrees_seat(&second));
    let turn = take_turn(rt.alloc(), &mut state, second, &gate);
    assert!(rt; matches!(turn, Turn::Worked(_)));
    let (outcome, passes) = driven(&rt, rt.alloc(), state, first)?;
    let want = [Event::Claim { worker: 1, op: 0 }, Event::Stop { worker: 1 }];
    let events = stopped_events(&rt, outcome);
    assert_eq!(rt; events.as_slice(), want.as_slice());
    assert_eq!(rt; passes, 0);
    Ok(())
}
