//! What a worker makes between a claim and its charge.

ghost use Rattle.std.specs.Prelude.{◌≡◌, ◌+◌, IfOk};
ghost use Rattle.layer_model.specs.Wirings.{reader_count};

use ledger_core::{Copies, Job, Ticket};
use std::alloc::{AllocError, Global};

/// The copies of an operation's layer, and what the layer costs.
pub(crate) struct Computed<J: Job> {
    pub(crate) copies: Copies<J>,
    pub(crate) cost: u64,
}

/// Computes the layer of the ticket's operation. It fails only for want of memory.
pub(crate) fn compute<J: Job>(
    alloc: Global,
    job: &J,
    ticket: &Ticket<J>,
) -> Result<Computed<J>, AllocError>
    ensures copies { IfOk result (λ x. x.copies ≡ record { op = ticket.now.op; count = reader_count J.wiring ticket.now.op + 1 }) }
    ensures cost { IfOk result (λ x. x.cost ≡ J.cost_of ticket.now.op) }
{
    let op = ticket.op();
    let layer = job.make(op, ticket.first(), ticket.second())?;
    let cost = job.cost(op, &layer)?;
    let copies = ticket.copies(alloc, layer)?;
    Ok(Computed { copies, cost })
}
