//! Whether an event may happen next.

ghost use Rattle.std.specs.Prelude.{◌≡◌, ◌↔◌, IsTrue};
ghost use Rattle.ledger_history.specs.Histories.{setup_of_lists};
ghost use Rattle.ledger_history.specs.Enabled.{Enabled};
ghost use Rattle.ledger_table.specs.Ledgers.{IsAllowed};
ghost use Rattle.ledger_table.specs.Working.Costs.{IsCharged, MayBeCharged};

use crate::table::Table;
use ledger_history::Event;
use ledger_history::plain::input_count;

impl Table {
    /// Whether the event may happen next, if the cost in it is the operation's cost.
    pub fn allows(&self, event: Event) -> bool
        ensures { IsTrue result ↔ IsAllowed self.now event }
    {
        match event {
            Event::Claim { worker, op } => self.may_claim(worker, op),
            Event::Charge { worker, op, cost } => self.may_charge(worker, op, cost),
            Event::Publish { worker, op } => self.may_publish(worker, op),
            Event::Release { worker, op, place } => self.may_release(worker, op, place),
            Event::Stop { worker } => self.may_stop(worker),
        }
    }

    /// Whether the event may happen next where these are the costs of the operations.
    pub fn allows_at(&self, costs: &[u64], event: Event) -> bool
        ensures { IsTrue result
            ↔ Enabled (setup_of_lists self.now.wires costs.now self.now.budget self.now.workers)
            self.now.events event }
    {
        has_cost(costs, event) && self.allows(event)
    }

    fn may_claim(&self, worker: u32, op: u32) -> bool
        ensures { IsTrue result ↔ IsAllowed self.now (Event.Claim worker op) }
    {
        !self.is_stopped()
            && worker < self.workers()
            && self.held(worker).is_none()
            && self.next() == Some(op)
    }

    fn may_charge(&self, worker: u32, op: u32, cost: u64) -> bool
        ensures { IsTrue result ↔ IsAllowed self.now (Event.Charge worker op cost) }
    {
        self.may_be_charged(worker, op) && self.admits(op, cost)
    }

    /// Whether nobody has stopped the run, and the worker holds the operation and hasn't charged it.
    fn may_be_charged(&self, worker: u32, op: u32) -> bool
        ensures { IsTrue result ↔ MayBeCharged self.now worker op }
    {
        !self.is_stopped() && self.held(worker) == Some(op) && !self.is_charged(op)
    }

    fn may_publish(&self, worker: u32, op: u32) -> bool
        ensures { IsTrue result ↔ IsAllowed self.now (Event.Publish worker op) }
    {
        self.held(worker) == Some(op) && self.is_charged(op) && !self.is_published(op)
    }

    fn may_release(&self, worker: u32, op: u32, place: u32) -> bool
        ensures { IsTrue result ↔ IsAllowed self.now (Event.Release worker op place) }
    {
        self.held(worker) == Some(op)
            && self.is_published(op)
            && place == self.releases(op)
            && place < input_count(self.wires(), op)
    }

    fn may_stop(&self, worker: u32) -> bool
        ensures { IsTrue result ↔ IsAllowed self.now (Event.Stop worker) }
    {
        match self.held(worker) {
            Some(op) => !self.is_charged(op),
            None => false,
        }
    }
}

/// Whether a charge has the operation's cost. An operation past the end of the list has the cost 0.
fn has_cost(costs: &[u64], event: Event) -> bool
    ensures { IsTrue result ↔ IsCharged costs.now event }
{
    match event {
        Event::Charge { op, cost, .. } => costs.get(op as usize).copied().unwrap_or(0) == cost,
        _ => true,
    }
}
