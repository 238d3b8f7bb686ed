//! Two workers by State's own calls, and runs whose traces are printed and replayed.

use crate::hand::{Hand, claimed, idle_seat, next_call};
use crate::pair::{Pair, start};
use crate::run::run_rounds;
use crate::shapes::{chain, comb, fan};
use layer_model::Wiring;
use ledger_core::{ChargeAnswer, Claim, Seat, Start, State};
use ledger_history::Event;
use std::alloc::Global;
use std::process::Abort;
use std::test::Fail;
use trace_replay::{Summary, replay};
use trace_text::print_trace;

#[test]
fn a_charge_past_the_budget_waits_for_the_lower_operation(rt: HostRuntime) -> Result<(), Fail> {
    let alloc = rt.alloc();
    let Start {
        mut state,
        mut seats,
    } = start(alloc)?.ok_or("a wiring")?;
    let second = seats.pop().ok_or("a seat")?;
    let first = seats.pop().ok_or("a seat")?;
    let mut second = Hand::Idle(second);
    let mut first = Hand::Idle(first);
    first = next_call(&rt, alloc, &mut state, first);
    second = next_call(&rt, alloc, &mut state, second);
    first = next_call(&rt, alloc, &mut state, first);
    second = next_call(&rt, alloc, &mut state, second);
    assert_eq!(rt; state.total(), 4);
    assert_eq!(rt; state.events().len(), 3);
    first = next_call(&rt, alloc, &mut state, first);
    second = next_call(&rt, alloc, &mut state, second);
    assert_eq!(rt; state.total(), 8);
    assert!(rt; state.layer(0).is_some() && state.layer(1).is_none());
    second = next_call(&rt, alloc, &mut state, second);
    let _first = idle_seat(&rt, first);
    let _second = idle_seat(&rt, second);
    assert!(rt; state.is_idle() && !state.is_stopped());
    Ok(())
}

/// A claim in a run that is stopped.
fn stopped_claim(rt: &impl Abort, state: &mut State<Pair>, seat: Seat) {
    assert!(rt; state.agrees_seat(&seat));
    match state.claim(seat) {
        Claim::Stopped(_seat) => {}
        Claim::Work(_ticket) => rt.abort(),
        Claim::NotYet(_seat) => rt.abort(),
        Claim::Done(_seat) => rt.abort(),
    }
}

#[test]
fn a_stop_is_met_by_the_other_worker(rt: HostRuntime) -> Result<(), Fail> {
    let alloc = rt.alloc();
    let Start {
        mut state,
        mut seats,
    } = start(alloc)?.ok_or("a wiring")?;
    let second = seats.pop().ok_or("a seat")?;
    let first = seats.pop().ok_or("a seat")?;
    let first = claimed(&rt, alloc, &mut state, Hand::Idle(first));
    let second = claimed(&rt, alloc, &mut state, Hand::Idle(second));
    assert!(rt; first.worker() == 0 && second.worker() == 1);
    assert!(rt; state.agrees_ticket(&first));
    let first = state.stop(first);
    assert!(rt; state.is_stopped() && state.agrees_seat(&first));
    assert!(rt; state.agrees_ticket(&second));
    match state.charge(second, 4) {
        ChargeAnswer::Stopped(seat) => {
            stopped_claim(&rt, &mut state, seat);
        }
        ChargeAnswer::Charged(_charged) => rt.abort(),
        ChargeAnswer::NotYet(_ticket) => rt.abort(),
    }
    let events = [
        Event::Claim { worker: 0, op: 0 },
        Event::Claim { worker: 1, op: 1 },
        Event::Stop { worker: 0 },
    ];
    assert_eq!(rt; state.into_history().events.as_slice(), events.as_slice());
    Ok(())
}

/// Runs the wiring under the budget, prints the trace and replays it.
fn replayed(alloc: Global, wiring: &Wiring, budget: u64) -> Result<Summary, Fail> {
    let history = run_rounds(alloc, wiring, budget)?.ok_or("it is finished")?;
    let text = print_trace(alloc, &history)?;
    Ok(replay(alloc, wiring, Some(64), Some(budget), &text)?)
}

#[test]
fn runs_of_64_workers_under_each_budget(rt: HostRuntime) -> Result<(), Fail> {
    let alloc = rt.alloc();
    let wiring = Wiring::checked(alloc, comb(alloc, 131)?)?.ok_or("a wiring")?;
    for budget in [0, 7, 1_000_000] {
        let summary = replayed(alloc, &wiring, budget)?;
        assert_eq!(rt; summary.operations, 131);
        assert_eq!(rt; summary.events, 393 + 129);
    }
    let wiring = Wiring::checked(alloc, fan(alloc, 100)?)?.ok_or("a wiring")?;
    assert_eq!(rt; replayed(alloc, &wiring, 6)?.events, 300 + 198);
    let wiring = Wiring::checked(alloc, chain(alloc, 9)?)?.ok_or("a wiring")?;
    assert_eq!(rt; replayed(alloc, &wiring, 0)?.peak, 13);
    Ok(())
}
