//! One worker does what is left of a run.

ghost use Rattle.std.specs.Prelude.{◌≡◌, ◌<◌, length, Some, slice_get};
ghost use Rattle.ledger_core.specs.Jobs.{setup_for};
ghost use Rattle.ledger_core.specs.Machines.{SeatAgrees, IsIdle};
ghost use Rattle.ledger_core.specs.declared.tokens.Seat.{Seat};
ghost use Rattle.layer_workers.specs.Outcomes.{first_worker, Ends};
ghost use Rattle.layer_workers.specs.Working.Alone.{Drove};

use crate::outcome::Outcome;
use crate::turn::{Turn, take_turn};
use drc_ports::Gate;
use ledger_core::{Job, Seat, State};
use std::alloc::Global;

/// Lets the worker of the first seat do what is left of the run, on the calling thread, where nobody is busy. It waits for
/// nobody. The gate is passed once for each operation, after its claim. The run is stopped only where there was no memory
/// for a layer.
pub fn drive<J: Job, G: Gate>(
    alloc: Global,
    state: State<J>,
    seats: Vec<Seat>,
    gate: &G,
) -> Outcome<J>
    requires idle { IsIdle state }
    requires some { 0 < length seats.items }
    requires first { (seat : Seat) → slice_get seats.items 0 ≡ Some seat → SeatAgrees state seat }
    ensures { Ends (setup_for J.wiring J.cost_of J.budget J.workers) (first_worker seats.items) state.events result }
{
    let mut state = state;
    let mut seats = seats;
    let seat = seats.remove(0);
    match take_all_turns(alloc, &mut state, seat, gate) {
        Ending::Finished => Outcome::Finished(state.collect()),
        Ending::Stopped => Outcome::Stopped(state.into_history()),
    }
}

/// How the turns of a worker end.
pub(crate) enum Ending {
    /// Every operation is finished.
    Finished,
    /// Somebody has stopped the run.
    Stopped,
}

/// Lets the worker take turns until the run ends.
fn take_all_turns<J: Job, G: Gate>(
    alloc: Global,
    state: &mut State<J>,
    seat: Seat,
    gate: &G,
) -> Ending
    requires agrees { SeatAgrees state.old seat }
    requires idle { IsIdle state.old }
    ensures { Drove (setup_for J.wiring J.cost_of J.budget J.workers) seat.worker state.old result state.new }
{
    let mut seat = seat;
    loop {
        match take_turn(alloc, state, seat, gate) {
            Turn::Worked(next) => seat = next,
            Turn::Done => return Ending::Finished,
            Turn::Stopped => return Ending::Stopped,
        }
    }
}
