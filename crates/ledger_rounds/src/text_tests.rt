//! The trace of a run that one worker drives.

ghost use Rattle.std.specs.Prelude.{◌≡◌, ◌+◌, ◌/◌, [], ◌∷◌, true, false, None, Some};

use drc_ports::OpenGate;
use layer_model::{Wire, Wiring};
use layer_workers::{Outcome, drive};
use ledger_core::{Job, Start, State};
use std::alloc::{AllocError, Global};
use std::process::Abort;
use std::sync::Arc;
use std::test::Fail;
use trace_replay::{Summary, replay};
use trace_text::{TraceFault, TraceReason, print_trace};

// One worker under no budget, on a layer and another that reads it and is reported.
const TRACE: &[u8] =
    b"DRCTRACE 1\noperations 2\nworkers 1\nbudget 0\ncost 0 4\ncost 1 2\nclaim 0 0\ncharge 0 0 4\npublish 0 0\nclaim 0 1\ncharge 0 1 2\npublish 0 1\nrelease 0 1 0\nend\n";

/// The job of that run. Each layer is its operation's number.
#[derive(Drop)]
struct Sides {
    most: u64,
}

impl Job for Sides {
    type Layer = u32;

    ghost wiring = { record { first = None; second = None; reported = false } ∷ (record { first = Some 0; second = None; reported = true } ∷ []) };

    ghost budget = { 0 };

    ghost workers = { 1 };

    ghost right = { λ op l. l ≡ op };

    ghost cost_of = { λ op. 4 / (op + 1) };

    fn make(
        &self,
        op: u32,
        _first: Option<&u32>,
        _second: Option<&u32>,
    ) -> Result<u32, AllocError> {
        Ok(op)
    }

    fn cost(&self, op: u32, _layer: &u32) -> Result<u64, AllocError> {
        Ok(4 / (op as u64 + 1))
    }
}

/// A wiring of two operations, of which the second reads the first at one place or at two and is reported.
fn wiring(alloc: Global, second: Option<u32>) -> Result<Option<Wiring>, AllocError> {
    let wires = vec![in alloc;
        Wire {
            first: None,
            second: None,
            reported: false
        },
        Wire {
            first: Some(0),
            second,
            reported: true
        },
    ]?;
    Wiring::checked(alloc, wires)
}

fn start(alloc: Global) -> Result<Option<Start<Sides>>, AllocError> {
    let wires = vec![in alloc;
        Wire {
            first: None,
            second: None,
            reported: false
        },
        Wire {
            first: Some(0),
            second: None,
            reported: true
        },
    ]?;
    let job = Arc::new(alloc, Sides { most: 4 })?;
    match Wiring::checked(alloc, wires)? {
        Some(wiring) => Ok(Some(State::new(alloc, job, &wiring, 0, 1)?)),
        None => Ok(None),
    }
}

/// The trace of the run that one worker drives to its end.
fn driven(rt: &impl Abort, alloc: Global) -> Result<Vec<u8>, Fail> {
    let Start { state, mut seats } = start(alloc)?.ok_or("a wiring")?;
    let seat = seats.pop().ok_or("a seat")?;
    assert!(rt; state.is_idle());
    assert!(rt; state.agrees_seat(&seat));
    let seats = vec![in alloc; seat]?;
    match drive(alloc, state, seats, &OpenGate) {
        Outcome::Finished(ended) => Ok(print_trace(alloc, &ended.history)?),
        Outcome::Stopped(_history) => rt.abort(),
    }
}

#[test]
fn a_driven_run_is_printed_and_replayed(rt: HostRuntime) -> Result<(), Fail> {
    let text = driven(&rt, rt.alloc())?;
    assert_eq!(rt; text.as_slice(), TRACE);
    let one_place = wiring(rt.alloc(), None)?.ok_or("a wiring")?;
    let want = Summary {
        operations: 2,
        events: 7,
        peak: 6,
    };
    assert_eq!(rt;
        replay(rt.alloc(), &one_place, Some(1), Some(0), &text)?,
        want
    );
    Ok(())
}

#[test]
fn a_trace_of_another_wiring_of_as_many_operations(rt: HostRuntime) -> Result<(), Fail> {
    let two_places = wiring(rt.alloc(), Some(0))?.ok_or("a wiring")?;
    match replay(rt.alloc(), &two_places, None, None, TRACE) {
        Err(TraceFault::Refused(found)) => {
            assert!(rt;
                found.line == 14 && found.reason == TraceReason::Unfinished,
                "{found:?}"
            );
        }
        _ => assert!(rt; false, "it isn't refused"),
    }
    Ok(())
}
