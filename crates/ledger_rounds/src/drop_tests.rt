//! Layers that note their drop: each but the last is dropped when the release of its one place has returned, and the last
//! with what the run reports.

ghost use Rattle.std.specs.Prelude.{◌≡◌};
ghost use Rattle.ledger_rounds.specs.Chains.{chain_wires};

use crate::hand::{Hand, idle_seat, next_call};
use layer_model::{Wire, Wiring};
use ledger_core::{Ended, Job, Start, State};
use std::alloc::{AllocError, Global};
use std::sync::Arc;
use std::sync::atomic::{AtomicU32, Ordering};
use std::test::Fail;

/// The layer of an operation, which counts its drop by a digit of its own.
pub struct Noted {
    op: u32,
    drops: Arc<AtomicU32>,
}

impl Drop for Noted {
    fn drop(self) {
        let Noted { op, drops } = self;
        let _before = drops.fetch_add(digit(op), Ordering::SeqCst);
    }
}

fn digit(op: u32) -> u32 {
    match op {
        0 => 1,
        1 => 10,
        _ => 100,
    }
}

/// A chain of three operations, of which the last is reported.
#[derive(Drop)]
struct Chain {
    drops: Arc<AtomicU32>,
}

const WIRES: [Wire; 3] = [
    Wire {
        first: None,
        second: None,
        reported: false,
    },
    Wire {
        first: Some(0),
        second: None,
        reported: false,
    },
    Wire {
        first: Some(1),
        second: None,
        reported: true,
    },
];

impl Job for Chain {
    type Layer = Noted;

    ghost wiring = { chain_wires };

    ghost budget = { 0 };

    ghost workers = { 1 };

    ghost right = { λ op l. l.op ≡ op };

    ghost cost_of = { λ _. 4 };

    fn make(
        &self,
        op: u32,
        _first: Option<&Noted>,
        _second: Option<&Noted>,
    ) -> Result<Noted, AllocError> {
        Ok(Noted {
            op,
            drops: self.drops.clone()?,
        })
    }

    fn cost(&self, _op: u32, _layer: &Noted) -> Result<u64, AllocError> {
        Ok(4)
    }
}

/// The state in which nothing has happened.
fn start(alloc: Global, drops: Arc<AtomicU32>) -> Result<Option<Start<Chain>>, AllocError> {
    let mut wires = Vec::new(alloc);
    wires.extend_from_slice(&WIRES)?;
    let job = Arc::new(alloc, Chain { drops })?;
    match Wiring::checked(alloc, wires)? {
        Some(wiring) => Ok(Some(State::new(alloc, job, &wiring, 0, 1)?)),
        None => Ok(None),
    }
}

#[test]
fn a_layer_is_dropped_at_its_last_release(rt: HostRuntime) -> Result<(), Fail> {
    let alloc = rt.alloc();
    let drops = Arc::new(alloc, AtomicU32::new(0))?;
    let Start {
        mut state,
        mut seats,
    } = start(alloc, drops.clone()?)?.ok_or("a wiring")?;
    let mut hand = Hand::Idle(seats.pop().ok_or("a seat")?);
    // claim, charge and publish of each operation, and a release of each but the first
    let mut seen = [0; 11];
    for count in &mut seen {
        hand = next_call(&rt, alloc, &mut state, hand);
        *count = drops.load(Ordering::SeqCst);
    }
    assert_eq!(rt; seen, [0, 0, 0, 0, 0, 0, 1, 1, 1, 1, 11]);
    let _seat = idle_seat(&rt, hand);
    assert!(rt; state.is_finished());
    let Ended { reported, history } = state.collect();
    assert_eq!(rt; history.events.len(), 11);
    assert!(rt; reported.layer(2).is_some());
    assert_eq!(rt; drops.load(Ordering::SeqCst), 11);
    drop(reported);
    assert_eq!(rt; drops.load(Ordering::SeqCst), 111);
    Ok(())
}
