//! The table, and what it tells.

ghost use Rattle.std.specs.Prelude.{◌≡◌, ◌⊎◌, ◌↔◌, ℕ, ◌+◌, ◌<◌, ◌≤◌, List, [], None, replicate, reverse, IsTrue, IfOk, IfSome, IfNone};
ghost use Rattle.layer_model.specs.Wirings as wirings;
ghost use Rattle.layer_model.specs.Wirings.{IsWiring};
ghost use Rattle.ledger_history.specs.Histories as history;
ghost use Rattle.ledger_history.specs.Histories.{IsComplete};
ghost use Rattle.ledger_history.specs.Enabled.{IsReady, IsNext, AllFinishedBelow};
ghost use Rattle.ledger_table.specs.Ledgers.{Ledger, setup_of, IsLegal};

use crate::mark::{Mark, fresh_marks, is_done, is_gone};
use crate::past::Past;
use crate::places::Places;
use crate::ready::first_ready;
use layer_model::{Wire, Wiring};
use ledger_history::Event;
use number_set::NumberSet;
use std::alloc::{AllocError, Global};
use std::marker::Model;

/// What the events so far come to. Contracts see the wiring, the budget, the number of workers and the events, newest
/// first.
#[derive(Debug, Drop)]
pub struct Table {
    pub(crate) places: Places,
    pub(crate) budget: u64,
    pub(crate) marks: Vec<Mark>,
    pub(crate) held: Vec<Option<u32>>,
    pub(crate) ready: NumberSet,
    pub(crate) lowest: u32,
    pub(crate) total: u128,
    pub(crate) stopped: bool,
    pub(crate) past: Past,
}

impl Model for Table {
    ghost use Rattle.ledger_table.specs.Ledgers.{Ledger};

    ghost Value = { Ledger };

    ghost use Rattle.ledger_table.specs.Tables.{ledger_of, IsTable};

    ghost view = { ledger_of };

    ghost invariant = { IsTable };
}

impl Table {
    /// The table of a run in which nothing has happened. It takes all memory that the run needs, and fails only for want
    /// of it.
    pub fn new(
        alloc: Global,
        wiring: &Wiring,
        budget: u64,
        workers: u32,
    ) -> Result<Table, AllocError>
        ensures { IfOk result
            (λ t. t ≡ record { wires = wiring.now; budget = budget; workers = workers; events = [] }) }
    {
        let places = Places::new(alloc, wiring)?;
        let marks = fresh_marks(alloc, wiring.list())?;
        let held = all_idle(alloc, workers as usize)?;
        let ready = first_ready(alloc, wiring.list())?;
        let past = Past::new(alloc, 5 * wiring.list().len() + workers as usize)?;
        Ok(Table {
            places,
            budget,
            marks,
            held,
            ready,
            lowest: 0,
            total: 0,
            stopped: false,
            past,
        })
    }

    /// The wires, by the numbers of their operations.
    pub fn wires(&self) -> &[Wire]
        ensures same { result.now ≡ self.now.wires }
        ensures formed { IsWiring self.now.wires }
    {
        self.places.wires()
    }

    /// The budget.
    pub fn budget(&self) -> u64
        ensures { result ≡ self.now.budget }
    {
        self.budget
    }

    /// The number of workers.
    pub fn workers(&self) -> u32
        ensures { result ≡ self.now.workers }
    {
        self.held.len() as u32
    }

    /// The lowest operation that is ready: unclaimed, and each of its inputs published.
    pub fn next(&self) -> Option<u32>
        ensures some { IfSome result (λ i. IsNext (setup_of self.now) self.now.events i) }
        ensures none { IfNone result ((i : ℕ) → IsReady (setup_of self.now) self.now.events i → ⊥) }
    {
        self.ready.lowest()
    }

    /// The operation that the worker holds.
    pub fn held(&self, worker: u32) -> Option<u32>
        ensures { result ≡ history.held (setup_of self.now) self.now.events worker }
    {
        if (worker as usize) < self.held.len() {
            self.held[worker as usize]
        } else {
            None
        }
    }

    /// Whether the operation is charged.
    pub fn is_charged(&self, op: u32) -> bool
        ensures { result ≡ history.is_charged self.now.events op }
    {
        (op as usize) < self.marks.len() && self.marks[op as usize].charged
    }

    /// Whether the operation is published.
    pub fn is_published(&self, op: u32) -> bool
        ensures { result ≡ history.is_published self.now.events op }
    {
        (op as usize) < self.marks.len() && self.marks[op as usize].published
    }

    /// How many places of the operation are released.
    pub fn releases(&self, op: u32) -> u32
        ensures { result ≡ history.releases self.now.events op }
    {
        if (op as usize) < self.marks.len() {
            self.marks[op as usize].released
        } else {
            0
        }
    }

    /// Whether the operation is finished: published, and each of its places released.
    pub fn is_finished(&self, op: u32) -> bool
        ensures { result ≡ history.is_finished (setup_of self.now) self.now.events op }
    {
        (op as usize) < self.marks.len() && is_done(self.places.wires(), &self.marks, op)
    }

    /// Whether the layer of the operation is let go.
    pub fn is_let_go(&self, op: u32) -> bool
        ensures { result ≡ history.is_let_go (setup_of self.now) self.now.events op }
    {
        (op as usize) < self.marks.len() && is_gone(self.places.wires(), &self.marks, op)
    }

    /// Whether a charge of the operation at this cost stays within the budget, or no lower operation is unfinished.
    pub fn admits(&self, op: u32, cost: u64) -> bool
        ensures { IsTrue result
            ↔ ((history.total (setup_of self.now) self.now.events + cost ≤ self.now.budget)
            ⊎ AllFinishedBelow (setup_of self.now) self.now.events op) }
    {
        self.total + cost as u128 <= self.budget as u128 || op <= self.lowest
    }

    /// The sum of the charges of operations that aren't let go.
    pub fn total(&self) -> u128
        ensures { result ≡ history.total (setup_of self.now) self.now.events }
    {
        self.total
    }

    /// Whether there is a stop.
    pub fn is_stopped(&self) -> bool
        ensures { result ≡ history.is_stopped self.now.events }
    {
        self.stopped
    }

    /// Whether every operation is finished.
    pub fn is_complete(&self) -> bool
        ensures { IsTrue result ↔ IsComplete (setup_of self.now) self.now.events }
    {
        self.lowest as usize == self.marks.len()
    }

    /// The events, newest first.
    pub fn events(&self) -> &[Event]
        ensures same { result.now ≡ self.now.events }
        ensures legal { IsLegal self.now }
    {
        self.past.newest_first()
    }

    /// The events, oldest first.
    pub fn into_events(self) -> Vec<Event>
        ensures events { result.items ≡ reverse self.events }
        ensures legal { IsLegal self }
    {
        let Table { past, .. } = self;
        past.into_oldest_first()
    }
}

fn all_idle(alloc: Global, workers: usize) -> Result<Vec<Option<u32>>, AllocError>
    ensures { IfOk result (λ held. held.items ≡ replicate workers None) }
{
    Ok(vec![in alloc; None; workers]?)
}
