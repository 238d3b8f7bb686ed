//! The job of the run: each layer is its operation's number.

ghost use Rattle.std.specs.Prelude.{◌≡◌};
ghost use Rattle.ledger_rounds.specs.Costs.{cost_of};

use ledger_core::Job;
use std::alloc::AllocError;
use std::marker::{Brand, PhantomData};

/// What is fixed for a run, under a name.
pub trait Naming {
    ghost use Rattle.std.specs.Prelude.{ℕ, List};
    ghost use Rattle.layer_model.specs.declared.wiring.Wire.{Wire};

    ghost wiring: { List Wire };

    ghost budget: { ℕ };
}

impl Naming for Brand {
    ghost use Rattle.std.specs.Prelude.{[]};

    ghost wiring = { [] };

    ghost budget = { 0 };
}

/// How many workers a run has.
pub const WORKERS: u32 = 64;

/// Layers that are the numbers of their operations, and cost 1 to 7.
#[derive(Drop)]
pub struct Numbers<N: Naming> {
    pub of: PhantomData<N>,
}

impl<N: Naming + Send + Sync> Job for Numbers<N> {
    type Layer = u32;

    ghost wiring = { N.wiring };

    ghost budget = { N.budget };

    ghost workers = { 64 };

    ghost right = { λ op l. l ≡ op };

    ghost cost_of = { cost_of };

    fn make(
        &self,
        op: u32,
        _first: Option<&u32>,
        _second: Option<&u32>,
    ) -> Result<u32, AllocError> {
        Ok(op)
    }

    fn cost(&self, op: u32, _layer: &u32) -> Result<u64, AllocError> {
        Ok(op as u64 % 7 + 1)
    }
}
