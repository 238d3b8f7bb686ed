//! An event is made.

ghost use Rattle.std.specs.Prelude.{◌≡◌, ◌⊎◌, ℕ, ◌+◌, ◌<◌, ◌≤◌, ◌^◌, List, ◌∷◌, length, None, Some, slice_get, slice_set, if◌then◌else◌};
ghost use Rattle.layer_model.specs.Wirings as wirings;
ghost use Rattle.layer_model.specs.Wirings.{IsWiring};
ghost use Rattle.ledger_history.specs.declared.event.Event.{Event};
ghost use Rattle.ledger_history.specs.Histories as history;
ghost use Rattle.ledger_history.specs.Enabled.{Legal, AllFinishedBelow};
ghost use Rattle.ledger_table.specs.declared.mark.Mark.{Mark};
ghost use Rattle.ledger_table.specs.Ledgers.{with_event, charged_cost, IsAllowed};
ghost use Rattle.ledger_table.specs.Marks.{MarksOf, MarksWith, wired, run_of};
ghost use Rattle.ledger_table.specs.Ends.{IsLowest};

use crate::mark::{
    Mark, is_done, is_gone, mark_charged, mark_claimed, mark_published, mark_released,
    mark_returned,
};
use crate::ready::open_readers;
use crate::table::Table;
use layer_model::Wire;
use ledger_history::Event;
use ledger_history::plain::input;

impl Table {
    /// Makes the event, which may happen next.
    pub fn make(&mut self, event: Event)
        requires { IsAllowed self.old event }
        ensures { self.new ≡ with_event self.old event }
    {
        match event {
            Event::Claim { worker, op } => self.claim(worker, op),
            Event::Charge { worker, op, cost } => self.charge(worker, op, cost),
            Event::Publish { worker, op } => self.publish(worker, op),
            Event::Release { worker, op, place } => self.release(worker, op, place),
            Event::Stop { worker } => self.stop(worker),
        }
    }

    fn claim(&mut self, worker: u32, op: u32)
        requires { IsAllowed self.old (Event.Claim worker op) }
        ensures { self.new ≡ with_event self.old (Event.Claim worker op) }
    {
        mark_claimed(&mut self.marks, op);
        self.held[worker as usize] = Some(op);
        self.ready.remove(op);
        self.past.push(Event::Claim { worker, op });
    }

    fn charge(&mut self, worker: u32, op: u32, cost: u64)
        requires { IsAllowed self.old (Event.Charge worker op cost) }
        ensures { self.new ≡ with_event self.old (Event.Charge worker op cost) }
    {
        mark_charged(&mut self.marks, op, cost);
        self.total += cost as u128;
        self.past.push(Event::Charge { worker, op, cost });
    }

    fn publish(&mut self, worker: u32, op: u32)
        requires { IsAllowed self.old (Event.Publish worker op) }
        ensures { self.new ≡ with_event self.old (Event.Publish worker op) }
    {
        mark_published(&mut self.marks, op);
        open_readers(&self.places, &self.marks, &mut self.ready, op);
        let wires = self.places.wires();
        idle_if_done(wires, &self.marks, &mut self.held, worker, op);
        self.lowest = lowest_from(wires, &self.marks, self.lowest);
        self.past.push(Event::Publish { worker, op });
    }

    fn release(&mut self, worker: u32, op: u32, place: u32)
        requires { IsAllowed self.old (Event.Release worker op place) }
        ensures { self.new ≡ with_event self.old (Event.Release worker op place) }
    {
        mark_released(&mut self.marks, op);
        let wires = self.places.wires();
        self.total -= give_back(wires, &mut self.marks, op, place) as u128;
        idle_if_done(wires, &self.marks, &mut self.held, worker, op);
        self.lowest = lowest_from(wires, &self.marks, self.lowest);
        self.past.push(Event::Release { worker, op, place });
    }

    fn stop(&mut self, worker: u32)
        requires { IsAllowed self.old (Event.Stop worker) }
        ensures { self.new ≡ with_event self.old (Event.Stop worker) }
    {
        self.held[worker as usize] = None;
        self.stopped = true;
        self.past.push(Event::Stop { worker });
    }
}

/// The worker holds nothing any more where the operation is finished.
fn idle_if_done(wires: &[Wire], marks: &[Mark], held: &mut [Option<u32>], worker: u32, op: u32)
    requires wiring { IsWiring wires.now }
    requires there { op < length marks.now }
    requires worker { worker < length held.old }
    ensures { (budget workers : ℕ) (h : List Event) → MarksOf wires.now h marks.now → Legal (run_of wires.now budget workers h) h
        → held.new ≡ (if history.is_finished (wired wires.now) h op then slice_set held.old worker None else held.old) }
{
    if is_done(wires, marks, op) {
        held[worker as usize] = None;
    }
}

/// The lowest operation from this one on that isn't finished, or the number of operations.
fn lowest_from(wires: &[Wire], marks: &[Mark], from: u32) -> u32
    requires wiring { IsWiring wires.now }
    requires all { length marks.now ≡ length wires.now }
    requires there { from ≤ length wires.now }
    ensures { (budget workers : ℕ) (h : List Event) → MarksOf wires.now h marks.now → Legal (run_of wires.now budget workers h) h
        → AllFinishedBelow (wired wires.now) h from → IsLowest wires.now h result }
{
    let end = wires.len() as u32;
    for op in from..end {
        if !is_done(wires, marks, op) {
            return op;
        }
    }
    end
}

/// The place of the operation, which is released, comes back to the layer that it reads. The result is what leaves the
/// total: that layer's cost, where it is let go.
fn give_back(wires: &[Wire], marks: &mut [Mark], op: u32, place: u32) -> u64
    requires there { (j : ℕ) → wirings.input wires.now op place ≡ Some j → j < length marks.old }
    requires left { (j : ℕ) (m : Mark) → wirings.input wires.now op place ≡ Some j → slice_get marks.old j ≡ Some m → 0 < m.left }
    ensures marks { (h : List Event) (w : ℕ) → MarksWith wires.now (Event.Release w op place ∷ h) (λ j. history.returns (wired wires.now) h j) marks.old
        → MarksOf wires.now (Event.Release w op place ∷ h) marks.new }
    ensures cost { (h : List Event) (j : ℕ) → wirings.input wires.now op place ≡ Some j → MarksOf wires.now h marks.new
        → result ≡ (if history.is_let_go (wired wires.now) h j then charged_cost h j else 0) }
{
    match input(wires, op, place) {
        Some(read) => {
            mark_returned(marks, read);
            cost_if_gone(wires, marks, read)
        }
        None => 0,
    }
}

/// The operation's cost where its layer is let go, and 0 elsewhere.
fn cost_if_gone(wires: &[Wire], marks: &[Mark], op: u32) -> u64
    requires { op < length marks.now }
    ensures { (h : List Event) → MarksOf wires.now h marks.now
        → result ≡ (if history.is_let_go (wired wires.now) h op then charged_cost h op else 0) }
{
    if is_gone(wires, marks, op) {
        marks[op as usize].cost
    } else {
        0
    }
}
