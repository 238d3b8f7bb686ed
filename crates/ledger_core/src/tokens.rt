//! What a worker has in its hands.

ghost use Rattle.std.specs.Prelude.{◌≡◌, ℕ, ◌+◌, ◌<◌, ◌≤◌, length, None, IfOk};
ghost use Rattle.std.specs.Option.{option_copied};
ghost use Rattle.layer_model.specs.Wirings.{input, input_count, reader_count};
ghost use Rattle.ledger_core.specs.Jobs.{IsGiven};
ghost use Rattle.ledger_core.specs.Tokens.{Holding, Releasing, Stock};

use crate::copies::{Copies, Loan};
use crate::job::Job;
use std::alloc::{AllocError, Global};
use std::marker::Model;

/// An idle worker. It may be dropped.
#[derive(Debug, Drop)]
pub struct Seat {
    pub(crate) worker: u32,
}

/// A worker that has claimed an operation, with the layers of its inputs. It has to be spent.
pub struct Ticket<J: Job> {
    pub(crate) worker: u32,
    pub(crate) op: u32,
    pub(crate) readers: u64,
    pub(crate) first: Option<Loan<J>>,
    pub(crate) second: Option<Loan<J>>,
}

impl<J: Job> Model for Ticket<J> {
    ghost use Rattle.std.specs.Prelude.{◌≡◌, ◌<◌, length};
    ghost use Rattle.layer_model.specs.Wirings.{input, reader_count};
    ghost use Rattle.ledger_core.specs.Tokens.{Holding};

    ghost Value = { Holding };

    ghost view = { λ t. record { worker = t.worker; op = t.op } };

    ghost invariant = { λ t. (t.op < length J.wiring) × (t.readers ≡ reader_count J.wiring t.op) × (t.first ≡ input J.wiring t.op 0) × (t.second ≡ input J.wiring t.op 1) };
}

impl<J: Job> Ticket<J> {
    /// The operation.
    pub fn op(&self) -> u32
        ensures op { result ≡ self.now.op }
        ensures there { result < length J.wiring }
    {
        self.op
    }

    /// The worker's number.
    pub fn worker(&self) -> u32
        ensures { result ≡ self.now.worker }
    {
        self.worker
    }

    /// The layer of the operation's first input.
    pub fn first(&self) -> Option<&J::Layer>
        ensures { IsGiven J.right (input J.wiring self.now.op 0) (option_copied result) }
    {
        lent(&self.first)
    }

    /// The layer of the operation's second input.
    pub fn second(&self) -> Option<&J::Layer>
        ensures { IsGiven J.right (input J.wiring self.now.op 1) (option_copied result) }
    {
        lent(&self.second)
    }

    /// The worker's seat. The loans go back.
    pub(crate) fn into_seat(self) -> Seat
        ensures { result.worker ≡ self.worker }
    {
        let Ticket {
            worker,
            op: _,
            readers: _,
            first: _,
            second: _,
        } = self;
        Seat { worker }
    }

    /// The copies of the operation's layer that a publish takes. It fails only for want of memory.
    pub fn copies(&self, alloc: Global, layer: J::Layer) -> Result<Copies<J>, AllocError>
        requires { J.right self.now.op layer }
        ensures { IfOk result (λ c. c ≡ record { op = self.now.op; count = reader_count J.wiring self.now.op + 1 }) }
    {
        Copies::of(alloc, self.op, layer, self.readers)
    }
}

fn lent<J: Job>(loan: &Option<Loan<J>>) -> Option<&J::Layer>
    ensures { IsGiven J.right loan.now (option_copied result) }
{
    match loan {
        Some(loan) => Some(loan.layer()),
        None => None,
    }
}

/// A worker that has charged its operation. It has to be spent.
pub struct Charged<J: Job> {
    pub(crate) worker: u32,
    pub(crate) op: u32,
    pub(crate) first: Option<Loan<J>>,
    pub(crate) second: Option<Loan<J>>,
}

impl<J: Job> Model for Charged<J> {
    ghost use Rattle.std.specs.Prelude.{◌≡◌, ◌<◌, length};
    ghost use Rattle.layer_model.specs.Wirings.{input};
    ghost use Rattle.ledger_core.specs.Tokens.{Holding};

    ghost Value = { Holding };

    ghost view = { λ c. record { worker = c.worker; op = c.op } };

    ghost invariant = { λ c. (c.op < length J.wiring) × (c.first ≡ input J.wiring c.op 0) × (c.second ≡ input J.wiring c.op 1) };
}

/// A worker that has published its operation, with the layers of the places that it hasn't released. It has to be spent.
pub struct Published<J: Job> {
    pub(crate) worker: u32,
    pub(crate) op: u32,
    pub(crate) released: u32,
    pub(crate) first: Option<Loan<J>>,
    pub(crate) second: Option<Loan<J>>,
}

impl<J: Job> Model for Published<J> {
    ghost use Rattle.std.specs.Prelude.{◌≡◌, ◌<◌, None, length};
    ghost use Rattle.layer_model.specs.Wirings.{input, input_count};
    ghost use Rattle.ledger_core.specs.Tokens.{Releasing};

    ghost Value = { Releasing };

    ghost view = { λ p. record { worker = p.worker; op = p.op; released = p.released } };

    ghost invariant = { λ p. (p.released < input_count J.wiring p.op) × (p.released ≡ 0 → p.first ≡ input J.wiring p.op 0) × (p.second ≡ input J.wiring p.op 1) };
}

impl<J: Job> Charged<J> {
    /// The operation.
    pub fn op(&self) -> u32
        ensures op { result ≡ self.now.op }
        ensures there { result < length J.wiring }
    {
        self.op
    }
}
