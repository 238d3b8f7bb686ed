//! The plain program: what a history says, computed as it is defined, slowly. A history is a slice whose newest event
//! stands first.

ghost use Rattle.std.specs.Prelude.{◌≡◌, ◌<◌, ◌≤◌, ◌*◌, ◌^◌, length};
ghost use Rattle.ledger_history.specs.Histories as history;
ghost use Rattle.ledger_history.specs.Lists.{setup_of};
ghost use Rattle.layer_model.specs.Wirings as wirings;

use crate::event::Event;
use crate::setup::SetupLists;
use layer_model::Wire;

/// Whether the operation is claimed.
pub fn is_claimed(past: &[Event], op: u32) -> bool
    ensures { result ≡ history.is_claimed past.now op }
{
    match past {
        [] => false,
        [Event::Claim { op: claimed, .. }, earlier @ ..] => *claimed == op
            || is_claimed(earlier, op),
        [_, earlier @ ..] => is_claimed(earlier, op),
    }
}

/// Whether the operation is charged.
pub fn is_charged(past: &[Event], op: u32) -> bool
    ensures { result ≡ history.is_charged past.now op }
{
    match past {
        [] => false,
        [Event::Charge { op: charged, .. }, earlier @ ..] => *charged == op
            || is_charged(earlier, op),
        [_, earlier @ ..] => is_charged(earlier, op),
    }
}

/// Whether the operation is published.
pub fn is_published(past: &[Event], op: u32) -> bool
    ensures { result ≡ history.is_published past.now op }
{
    match past {
        [] => false,
        [Event::Publish { op: published, .. }, earlier @ ..] => *published == op
            || is_published(earlier, op),
        [_, earlier @ ..] => is_published(earlier, op),
    }
}

/// Whether the place of the operation is released.
pub fn is_released(past: &[Event], op: u32, place: u32) -> bool
    ensures { result ≡ history.is_released past.now op place }
{
    match past {
        [] => false,
        [
            Event::Release {
                op: reader,
                place: back,
                ..
            },
            earlier @ ..,
        ] => { (*reader == op && *back == place) || is_released(earlier, op, place) }
        [_, earlier @ ..] => is_released(earlier, op, place),
    }
}

/// Whether there is a stop.
pub fn is_stopped(past: &[Event]) -> bool
    ensures { result ≡ history.is_stopped past.now }
{
    match past {
        [] => false,
        [Event::Stop { .. }, ..] => true,
        [_, earlier @ ..] => is_stopped(earlier),
    }
}

/// How many releases of the operation there are.
pub fn releases(past: &[Event], op: u32) -> u64
    ensures count { result ≡ history.releases past.now op }
    ensures few { result ≤ length past.now }
{
    match past {
        [] => 0,
        [Event::Release { op: reader, .. }, earlier @ ..] => {
            (if *reader == op { 1 } else { 0 }) + releases(earlier, op)
        }
        [_, earlier @ ..] => releases(earlier, op),
    }
}

/// The operation of the worker's last claim, if no stop of the worker follows that claim.
pub fn last_claim(past: &[Event], worker: u32) -> Option<u32>
    ensures { result ≡ history.last_claim past.now worker }
{
    match past {
        [] => None,
        [
            Event::Claim {
                worker: claimer,
                op,
            },
            earlier @ ..,
        ] => {
            if *claimer == worker {
                Some(*op)
            } else {
                last_claim(earlier, worker)
            }
        }
        [Event::Stop { worker: stopper }, earlier @ ..] => {
            if *stopper == worker {
                None
            } else {
                last_claim(earlier, worker)
            }
        }
        [_, earlier @ ..] => last_claim(earlier, worker),
    }
}

/// The input of the operation at the place.
pub fn input(wires: &[Wire], op: u32, place: u32) -> Option<u32>
    ensures { result ≡ wirings.input wires.now op place }
{
    let wire = wires.get(op as usize)?;
    match place {
        0 => wire.first,
        1 => wire.second,
        _ => None,
    }
}

/// Whether the operation is reported.
pub fn is_reported(wires: &[Wire], op: u32) -> bool
    ensures { result ≡ wirings.is_reported wires.now op }
{
    match wires.get(op as usize) {
        Some(wire) => wire.reported,
        None => false,
    }
}

/// How many input places the operation has.
pub fn input_count(wires: &[Wire], op: u32) -> u32
    ensures count { result ≡ wirings.input_count wires.now op }
    ensures few { result ≤ 2 }
{
    let first = if input(wires, op, 0).is_some() { 1 } else { 0 };
    let second = if input(wires, op, 1).is_some() { 1 } else { 0 };
    first + second
}

/// 1 where an input is the operation, and 0 elsewhere.
pub fn one_if_at(input: Option<u32>, op: u32) -> u64
    ensures count { result ≡ wirings.one_if_at input op }
    ensures few { result ≤ 1 }
{
    match input {
        Some(read) if read == op => 1,
        _ => 0,
    }
}

/// How many places read the operation.
pub fn reader_count(wires: &[Wire], op: u32) -> u64
    ensures count { result ≡ wirings.reader_count wires.now op }
    ensures few { result ≤ 2 * length wires.now }
{
    let mut count = 0;
    for wire in wires {
        count += one_if_at(wire.first, op) + one_if_at(wire.second, op);
    }
    count
}

/// How many releases of places that read the operation there are.
pub fn returns(setup: &SetupLists, past: &[Event], op: u32) -> u64
    ensures count { result ≡ history.returns (setup_of setup.now) past.now op }
    ensures few { result ≤ length past.now }
{
    match past {
        [] => 0,
        [
            Event::Release {
                op: reader,
                place,
                ..
            },
            earlier @ ..,
        ] => { one_if_at(input(setup.wires, *reader, *place), op) + returns(setup, earlier, op) }
        [_, earlier @ ..] => returns(setup, earlier, op),
    }
}

/// Whether the place of the operation is released, if there is such a place.
pub fn is_back(setup: &SetupLists, past: &[Event], op: u32, place: u32) -> bool
    ensures { result ≡ history.is_back (setup_of setup.now) past.now op place }
{
    match input(setup.wires, op, place) {
        Some(_) => is_released(past, op, place),
        None => true,
    }
}

/// Whether the operation is finished.
pub fn is_finished(setup: &SetupLists, past: &[Event], op: u32) -> bool
    ensures { result ≡ history.is_finished (setup_of setup.now) past.now op }
{
    is_published(past, op) && is_back(setup, past, op, 0) && is_back(setup, past, op, 1)
}

/// Whether the layer of the operation is let go.
pub fn is_let_go(setup: &SetupLists, past: &[Event], op: u32) -> bool
    ensures { result ≡ history.is_let_go (setup_of setup.now) past.now op }
{
    is_published(past, op)
        && !is_reported(setup.wires, op)
        && returns(setup, past, op) == reader_count(setup.wires, op)
}

/// Whether the layer of the operation is live.
pub fn is_live(setup: &SetupLists, past: &[Event], op: u32) -> bool
    ensures { result ≡ history.is_live (setup_of setup.now) past.now op }
{
    is_published(past, op) && !is_let_go(setup, past, op)
}

/// The sum of the charges of a part of the history, of operations that aren't let go in the whole of it.
fn charges_in(setup: &SetupLists, all: &[Event], past: &[Event]) -> u128
    ensures sum { result ≡ history.charges_in (setup_of setup.now) all.now past.now }
    ensures few { result ≤ 2 ^ 64 * length past.now }
{
    match past {
        [] => 0,
        [Event::Charge { op, cost, .. }, earlier @ ..] => {
            (if is_let_go(setup, all, *op) {
                0
            } else {
                *cost as u128
            }) + charges_in(setup, all, earlier)
        }
        [_, earlier @ ..] => charges_in(setup, all, earlier),
    }
}

/// The total of the history.
pub fn total(setup: &SetupLists, past: &[Event]) -> u128
    ensures sum { result ≡ history.total (setup_of setup.now) past.now }
    ensures few { result < 2 ^ 127 }
{
    charges_in(setup, past, past)
}

/// The operation that the worker holds.
pub fn held(setup: &SetupLists, past: &[Event], worker: u32) -> Option<u32>
    ensures { result ≡ history.held (setup_of setup.now) past.now worker }
{
    match last_claim(past, worker) {
        Some(op) if !is_finished(setup, past, op) => Some(op),
        _ => None,
    }
}
