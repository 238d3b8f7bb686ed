//! Which operations are ready.

ghost use Rattle.std.specs.Prelude.{◌≡◌, ℕ, ◌+◌, ◌*◌, ◌/◌, ◌<◌, ◌≤◌, ◌^◌, List, [], ◌∷◌, length, None, Some, slice_get, slice_set, true, false, if◌then◌else◌, IfOk};
ghost use Rattle.layer_model.specs.declared.wiring.Wire.{Wire};
ghost use Rattle.layer_model.specs.Wirings.{IsWiring};
ghost use Rattle.ledger_history.specs.declared.event.Event.{Event};
ghost use Rattle.ledger_history.specs.Histories as history;
ghost use Rattle.ledger_history.specs.Enabled.{Legal};
ghost use Rattle.ledger_table.specs.Marks.{MarksOf, run_of};
ghost use Rattle.ledger_table.specs.Working.Places.{IsLastBelow};
ghost use Rattle.ledger_table.specs.Flags.{FlagsOf, has_inputs, is_in};
ghost use Rattle.ledger_table.specs.Working.Openings.{starts_open};

use crate::mark::Mark;
use crate::places::Places;
use layer_model::Wire;
use ledger_history::plain::input;
use number_set::NumberSet;
use std::alloc::{AllocError, Global};

/// The operations that are ready where nothing has happened: those without inputs. It fails only for want of memory.
pub(crate) fn first_ready(alloc: Global, wires: &[Wire]) -> Result<NumberSet, AllocError>
    requires { IsWiring wires.now }
    ensures { IfOk result (λ flags. FlagsOf wires.now [] flags) }
{
    let mut ready = NumberSet::new(alloc, wires.len() as u32)?;
    for op in 0..wires.len() {
        if has_no_inputs(&wires[op]) {
            ready.insert(op as u32);
        }
    }
    Ok(ready)
}

fn has_no_inputs(wire: &Wire) -> bool
    ensures { result ≡ starts_open wire.now }
{
    wire.first.is_none() && wire.second.is_none()
}

/// The operation is published: puts its readers into the set where their other input is published too.
pub(crate) fn open_readers(places: &Places, marks: &[Mark], ready: &mut NumberSet, op: u32)
    requires there { op < length places.now }
    requires marks { length marks.now ≡ length places.now }
    requires ready { length ready.old ≡ length places.now }
    ensures { (budget workers w : ℕ) (h : List Event) → Legal (run_of places.now budget workers (Event.Publish w op ∷ h)) (Event.Publish w op ∷ h)
        → MarksOf places.now (Event.Publish w op ∷ h) marks.now → FlagsOf places.now h ready.old
        → FlagsOf places.now (Event.Publish w op ∷ h) ready.new }
{
    let wires = places.wires();
    let mut place = places.last_reader(op as usize);
    while let Some(reader) = place {
        open_reader(wires, marks, ready, (reader / 2) as u32);
        place = places.earlier_reader(reader);
    }
}

fn open_reader(wires: &[Wire], marks: &[Mark], ready: &mut NumberSet, reader: u32)
    requires wiring { IsWiring wires.now }
    requires there { reader < length wires.now }
    requires marks { length marks.now ≡ length wires.now }
    requires ready { length ready.old ≡ length wires.now }
    ensures all { length ready.new ≡ length ready.old }
    ensures flags { (h : List Event) → MarksOf wires.now h marks.now
        → ready.new ≡ (if has_inputs wires.now h reader then slice_set ready.old reader true else ready.old) }
{
    if has_inputs(wires, marks, reader) {
        ready.insert(reader);
    }
}

/// Whether each input of the operation is published.
fn has_inputs(wires: &[Wire], marks: &[Mark], op: u32) -> bool
    requires wiring { IsWiring wires.now }
    requires there { op < length wires.now }
    requires marks { length marks.now ≡ length wires.now }
    ensures { (h : List Event) → MarksOf wires.now h marks.now → result ≡ has_inputs wires.now h op }
{
    is_in(marks, input(wires, op, 0)) && is_in(marks, input(wires, op, 1))
}

/// Whether the input is published, if there is one.
fn is_in(marks: &[Mark], input: Option<u32>) -> bool
    requires { (j : ℕ) → input ≡ Some j → j < length marks.now }
    ensures { (ws : List Wire) (h : List Event) → MarksOf ws h marks.now → result ≡ is_in h input }
{
    match input {
        Some(op) => marks[op as usize].published,
        None => true,
    }
}
