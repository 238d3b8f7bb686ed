//! The run.

ghost use Rattle.std.specs.Prelude.{◌≡◌, false, IfOk, IfSome};
ghost use Rattle.ledger_history.specs.Histories.{is_stopped};
ghost use Rattle.ledger_record.specs.Records.{past, IsLegalFor, IsCompleteFor};
ghost use Rattle.ledger_rounds.specs.Costs.{cost_of};

use crate::numbers::{Naming, Numbers, WORKERS};
use drc_ports::OpenGate;
use layer_model::Wiring;
use layer_workers::{Turn, take_turn};
use ledger_core::{Seat, Start, State};
use ledger_record::History;
use std::alloc::{AllocError, Global};
use std::collections::VecDeque;
use std::marker::{Brand, PhantomData};
use std::sync::Arc;

/// Runs the wiring under the budget by 64 workers, each of which takes an operation in turn. None where some operation isn't
/// finished after as many turns as there are operations.
pub fn run_rounds(
    alloc: Global,
    wiring: &Wiring,
    budget: u64,
) -> Result<Option<History>, AllocError>
    ensures legal { IfOk result (λ o. IfSome o (λ h. IsLegalFor wiring.now cost_of h)) }
    ensures complete { IfOk result (λ o. IfSome o (λ h. IsCompleteFor wiring.now h)) }
    ensures runs { IfOk result (λ o. IfSome o (λ h. is_stopped (past h) ≡ false)) }
{
    run_named::<Brand>(alloc, wiring, budget)
}

fn run_named<N: Naming + Send + Sync>(
    alloc: Global,
    wiring: &Wiring,
    budget: u64,
) -> Result<Option<History>, AllocError>
    requires wiring { wiring.now ≡ N.wiring }
    requires budget { budget ≡ N.budget }
    ensures legal { IfOk result (λ o. IfSome o (λ h. IsLegalFor N.wiring cost_of h)) }
    ensures complete { IfOk result (λ o. IfSome o (λ h. IsCompleteFor N.wiring h)) }
    ensures runs { IfOk result (λ o. IfSome o (λ h. is_stopped (past h) ≡ false)) }
{
    let job = Arc::new(alloc, Numbers::<N> { of: PhantomData })?;
    let Start { state, seats } = State::new(alloc, job, wiring, budget, WORKERS)?;
    let mut state = state;
    let mut waiting = VecDeque::new(alloc);
    for seat in seats {
        waiting.push_back(seat)?;
    }
    for _turn in 0..wiring.list().len() {
        next_turn(alloc, &mut state, &mut waiting)?;
    }
    Ok(finished_history(state))
}

/// The record of the run, if it is finished.
fn finished_history<N: Naming + Send + Sync>(state: State<Numbers<N>>) -> Option<History>
    ensures legal { IfSome result (λ h. IsLegalFor N.wiring cost_of h) }
    ensures complete { IfSome result (λ h. IsCompleteFor N.wiring h) }
    ensures runs { IfSome result (λ h. is_stopped (past h) ≡ false) }
{
    if state.is_stopped() {
        return None;
    }
    if !state.is_finished() {
        return None;
    }
    let ended = state.collect();
    Some(ended.history)
}

/// Lets the worker whose turn it is take it.
fn next_turn<N: Naming + Send + Sync>(
    alloc: Global,
    state: &mut State<Numbers<N>>,
    waiting: &mut VecDeque<Seat>,
) -> Result<(), AllocError> {
    if let Some(seat) = waiting.pop_front() {
        if state.is_idle() && state.agrees_seat(&seat) {
            if let Turn::Worked(seat) = take_turn(alloc, state, seat, &OpenGate) {
                waiting.push_back(seat)?;
            }
        }
    }
    Ok(())
}
