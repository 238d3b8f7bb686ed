//! Two workers make their first nine calls in each order, and the laws of histories are tried after each call.

use crate::hand::{Hand, idle_seat, next_call};
use crate::pair::{Pair, WIRES, start};
use ledger_core::{Start, State};
use ledger_history::plain::{
    held, input, is_claimed, is_live, is_published, is_released, is_reported, total,
};
use ledger_history::{Event, SetupLists, all_finished_below, is_legal};
use std::alloc::Global;
use std::process::Abort;
use std::test::Fail;

const SETUP: SetupLists<'static> = SetupLists {
    wires: &WIRES,
    costs: &[4, 4, 4],
    budget: 6,
    workers: 2,
};

/// Whether a place that reads the operation is out.
fn has_reader(past: &[Event], op: u32) -> bool {
    for place in 0..6u32 {
        let reader = place / 2;
        if input(&WIRES, reader, place % 2) == Some(op) && !is_released(past, reader, place % 2) {
            return true;
        }
    }
    false
}

/// Whether the state holds a layer exactly while it is published, and reported or read; and each input of what is claimed
/// until its place is released.
fn layers_live_while_read(state: &State<Pair>) -> bool {
    let past = state.events();
    for place in 0..6u32 {
        let op = place / 2;
        let kept = is_published(past, op) && (is_reported(&WIRES, op) || has_reader(past, op));
        let out = is_claimed(past, op) && !is_released(past, op, place % 2);
        let read = match input(&WIRES, op, place % 2) {
            Some(read) => is_live(&SETUP, past, read),
            None => true,
        };
        if state.layer(op).is_some() != kept
            || is_live(&SETUP, past, op) != kept
            || (out && !read)
        {
            return false;
        }
    }
    true
}

/// Whether the newest charge was admitted, no two workers hold one operation, and the total is that of the events.
fn budget_holds(state: &State<Pair>) -> bool {
    let past = state.events();
    let shared = held(&SETUP, past, 0).is_some() && held(&SETUP, past, 0) == held(&SETUP, past, 1);
    let sum = total(&SETUP, past);
    let admitted = match past.first() {
        Some(Event::Charge { op, .. }) => sum <= 6 || all_finished_below(&SETUP, past, *op),
        _ => true,
    };
    admitted && !shared && sum == state.total() && sum <= 6 + 12
}

/// Two workers make their calls in an order: bit K says whose call K is. Then they go on by turns until all is finished.
fn walk(rt: &impl Abort, alloc: Global, order: u32) -> Result<usize, Fail> {
    let Start {
        mut state,
        mut seats,
    } = start(alloc)?.ok_or("a wiring")?;
    let second = seats.pop().ok_or("a seat")?;
    let first = seats.pop().ok_or("a seat")?;
    let mut second = Hand::Idle(second);
    let mut first = Hand::Idle(first);
    for call in 0..26u32 {
        let bit = if call < 9 { order >> call } else { call };
        if bit % 2 == 0 {
            first = next_call(rt, alloc, &mut state, first);
        } else {
            second = next_call(rt, alloc, &mut state, second);
        }
        assert!(rt;
            layers_live_while_read(&state) && budget_holds(&state),
            "{order} {call}"
        );
    }
    assert!(rt;
        is_legal(&SETUP, state.events()) && state.is_finished(),
        "{order}"
    );
    let _first = idle_seat(rt, first);
    let _second = idle_seat(rt, second);
    Ok(state.collect().history.events.len())
}

#[test]
fn every_order_of_calls_keeps_the_laws(rt: HostRuntime) -> Result<(), Fail> {
    for order in 0..512 {
        assert_eq!(rt; walk(&rt, rt.alloc(), order)?, 11);
    }
    Ok(())
}
