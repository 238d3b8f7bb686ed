//! The plain program, continued: when an event may happen, and whether a history is legal.

ghost use Rattle.std.specs.Prelude.{◌≡◌, ◌↔◌, IsTrue};
ghost use Rattle.ledger_history.specs.Enabled.{InputIsPublished, IsReady, IsNext, AllFinishedBelow, MayClaim, MayCharge, Enabled, Legal};
ghost use Rattle.ledger_history.specs.Histories.{IsComplete};
ghost use Rattle.ledger_history.specs.Lists.{setup_of};

use crate::event::Event;
use crate::plain::{
    held, input, input_count, is_charged, is_claimed, is_finished, is_published, is_stopped,
    releases, total,
};
use crate::setup::SetupLists;

/// Whether the input of the operation at the place is published, if there is one.
fn has_input(setup: &SetupLists, past: &[Event], op: u32, place: u32) -> bool
    ensures { IsTrue result ↔ InputIsPublished (setup_of setup.now) past.now op place }
{
    match input(setup.wires, op, place) {
        Some(read) => is_published(past, read),
        None => true,
    }
}

/// Whether the operation is there, unclaimed, and each of its inputs published.
pub fn is_ready(setup: &SetupLists, past: &[Event], op: u32) -> bool
    ensures { IsTrue result ↔ IsReady (setup_of setup.now) past.now op }
{
    (op as usize) < setup.wires.len()
        && !is_claimed(past, op)
        && has_input(setup, past, op, 0)
        && has_input(setup, past, op, 1)
}

/// Whether the operation is the lowest that is ready.
pub fn is_next(setup: &SetupLists, past: &[Event], op: u32) -> bool
    ensures { IsTrue result ↔ IsNext (setup_of setup.now) past.now op }
{
    for lower in 0..op {
        if is_ready(setup, past, lower) {
            return false;
        }
    }
    is_ready(setup, past, op)
}

/// Whether every operation below this one is finished.
pub fn all_finished_below(setup: &SetupLists, past: &[Event], op: u32) -> bool
    ensures { IsTrue result ↔ AllFinishedBelow (setup_of setup.now) past.now op }
{
    for lower in 0..op {
        if !is_finished(setup, past, lower) {
            return false;
        }
    }
    true
}

/// Whether the event may happen after the history.
pub fn is_enabled(setup: &SetupLists, past: &[Event], event: Event) -> bool
    ensures { IsTrue result ↔ Enabled (setup_of setup.now) past.now event }
{
    match event {
        Event::Claim { worker, op } => may_claim(setup, past, worker, op),
        Event::Charge { worker, op, cost } => may_charge(setup, past, worker, op, cost),
        Event::Publish { worker, op } => {
            held(setup, past, worker) == Some(op) && is_charged(past, op) && !is_published(past, op)
        }
        Event::Release { worker, op, place } => {
            held(setup, past, worker) == Some(op)
                && is_published(past, op)
                && place as u64 == releases(past, op)
                && place < input_count(setup.wires, op)
        }
        Event::Stop { worker } => match held(setup, past, worker) {
            Some(op) => !is_charged(past, op),
            None => false,
        },
    }
}

fn may_claim(setup: &SetupLists, past: &[Event], worker: u32, op: u32) -> bool
    ensures { IsTrue result ↔ MayClaim (setup_of setup.now) past.now worker op }
{
    !is_stopped(past)
        && worker < setup.workers
        && held(setup, past, worker).is_none()
        && is_next(setup, past, op)
}

fn may_charge(setup: &SetupLists, past: &[Event], worker: u32, op: u32, cost: u64) -> bool
    ensures { IsTrue result ↔ MayCharge (setup_of setup.now) past.now worker op cost }
{
    let fits = total(setup, past) + cost as u128 <= setup.budget as u128;
    !is_stopped(past)
        && held(setup, past, worker) == Some(op)
        && !is_charged(past, op)
        && setup.costs.get(op as usize).copied().unwrap_or(0) == cost
        && (fits || all_finished_below(setup, past, op))
}

/// Whether each event was enabled after the events before it.
pub fn is_legal(setup: &SetupLists, past: &[Event]) -> bool
    ensures { IsTrue result ↔ Legal (setup_of setup.now) past.now }
{
    match past {
        [] => true,
        [event, earlier @ ..] => is_enabled(setup, earlier, *event) && is_legal(setup, earlier),
    }
}
