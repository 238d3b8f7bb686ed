//! The events that were made.

ghost use Rattle.std.specs.Prelude.{◌≡◌, ℕ, ◌+◌, ◌<◌, List, [], ◌∷◌, reverse, IfOk};
ghost use Rattle.ledger_table.specs.Working.Pasts.{Made};

use ledger_history::Event;
use std::alloc::{AllocError, Global};
use std::marker::Model;

/// The events, newest first, at the end of a vector whose front is the room for more.
#[derive(Debug, Drop)]
pub(crate) struct Past {
    events: Vec<Event>,
    first: usize,
}

impl Model for Past {
    ghost use Rattle.std.specs.Prelude.{◌≤◌, drop, length};
    ghost use Rattle.ledger_table.specs.Working.Pasts.{Made};

    ghost Value = { Made };

    ghost view = { λ p. record { events = drop p.first p.events.items; room = p.first } };

    ghost invariant = { λ p. p.first ≤ length p.events.items };
}

impl Past {
    /// No event, and room for so many. It fails only for want of memory.
    pub(crate) fn new(alloc: Global, room: usize) -> Result<Past, AllocError>
        ensures { IfOk result (λ p. p ≡ record { events = []; room = room }) }
    {
        let events = vec![in alloc; Event::Stop { worker: 0 }; room]?;
        Ok(Past {
            events,
            first: room,
        })
    }

    /// Adds an event, for which there is room.
    pub(crate) fn push(&mut self, event: Event)
        requires { 0 < self.old.room }
        ensures events { self.new.events ≡ event ∷ self.old.events }
        ensures room { self.new.room + 1 ≡ self.old.room }
    {
        self.first -= 1;
        self.events[self.first] = event;
    }

    /// The events, newest first.
    pub(crate) fn newest_first(&self) -> &[Event]
        ensures { result.now ≡ self.now.events }
    {
        &self.events[self.first..]
    }

    /// The events, oldest first.
    pub(crate) fn into_oldest_first(self) -> Vec<Event>
        ensures { result.items ≡ reverse self.events }
    {
        let Past { mut events, first } = self;
        events.reverse();
        let made = events.len() - first;
        events.truncate(made);
        events
    }
}
