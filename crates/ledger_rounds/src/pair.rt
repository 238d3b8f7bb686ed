//! A job for tests: two layers that are read by a third, under a budget that holds one and a half.

ghost use Rattle.std.specs.Prelude.{◌≡◌};
ghost use Rattle.ledger_rounds.specs.Pairs.{pair_wires};

use layer_model::{Wire, Wiring};
use ledger_core::{Job, Start, State};
use std::alloc::{AllocError, Global};
use std::sync::Arc;

/// Operations 0 and 1, and operation 2, which reads both and is reported. Each layer is its operation's number.
#[derive(Drop)]
pub struct Pair {
    pub cost: u64,
}

pub const WIRES: [Wire; 3] = [
    Wire {
        first: None,
        second: None,
        reported: false,
    },
    Wire {
        first: None,
        second: None,
        reported: false,
    },
    Wire {
        first: Some(0),
        second: Some(1),
        reported: true,
    },
];

impl Job for Pair {
    type Layer = u32;

    ghost wiring = { pair_wires };

    ghost budget = { 6 };

    ghost workers = { 2 };

    ghost right = { λ op l. l ≡ op };

    ghost cost_of = { λ _. 4 };

    fn make(
        &self,
        op: u32,
        _first: Option<&u32>,
        _second: Option<&u32>,
    ) -> Result<u32, AllocError> {
        Ok(op)
    }

    fn cost(&self, _op: u32, _layer: &u32) -> Result<u64, AllocError> {
        Ok(4)
    }
}

/// The state in which nothing has happened, with the seats of its two workers.
pub fn start(alloc: Global) -> Result<Option<Start<Pair>>, AllocError> {
    let mut wires = Vec::new(alloc);
    wires.extend_from_slice(&WIRES)?;
    let job = Arc::new(alloc, Pair { cost: 4 })?;
    match Wiring::checked(alloc, wires)? {
        Some(wiring) => Ok(Some(State::new(alloc, job, &wiring, 6, 2)?)),
        None => Ok(None),
    }
}
