//! The definitions on worked histories, on each of their spoilings, and on every history of small wirings.

ghost use Rattle.std.specs.Prelude.{◌≤◌};

use crate::plain::{
    held, input, is_claimed, is_finished, is_let_go, is_live, is_published, is_released,
    is_reported, is_stopped, total,
};
use crate::{Event, SetupLists, all_finished_below, is_enabled, is_legal};
use layer_model::Wire;
use std::process::Abort;

const NONE: Wire = Wire {
    first: None,
    second: None,
    reported: false,
};

fn reads(first: u32, second: u32) -> Wire {
    Wire {
        first: Some(first),
        second: Some(second),
        reported: false,
    }
}

fn reports(first: u32) -> Wire {
    Wire {
        first: Some(first),
        second: None,
        reported: true,
    }
}

fn claim(worker: u32, op: u32) -> Event {
    Event::Claim { worker, op }
}

fn charge(worker: u32, op: u32, cost: u64) -> Event {
    Event::Charge { worker, op, cost }
}

fn publish(worker: u32, op: u32) -> Event {
    Event::Publish { worker, op }
}

fn release(worker: u32, op: u32, place: u32) -> Event {
    Event::Release { worker, op, place }
}

/// An event that differs from this one in its worker, operation, cost or place, or is of another kind.
fn spoiled(event: Event, how: u32) -> Event {
    match event {
        Event::Claim { worker, op } => match how {
            0 => claim(worker ^ 1, op),
            1 => claim(worker, op ^ 1),
            2 => publish(worker, op),
            _ => charge(worker, op, 4),
        },
        Event::Charge { worker, op, cost } => match how {
            0 => charge(worker ^ 1, op, cost),
            1 => charge(worker, op ^ 1, cost),
            2 => charge(worker, op, cost ^ 1),
            _ => publish(worker, op),
        },
        Event::Publish { worker, op } => match how {
            0 => publish(worker ^ 1, op),
            1 => publish(worker, op ^ 1),
            2 => Event::Stop { worker },
            _ => release(worker, op, 0),
        },
        Event::Release { worker, op, place } => match how {
            0 => release(worker ^ 1, op, place),
            1 => release(worker, op ^ 1, place),
            2 => release(worker, op, place ^ 1),
            _ => publish(worker, op),
        },
        Event::Stop { worker } => Event::Stop { worker: worker ^ 1 },
    }
}

// A square of a layer with itself, written: every event of one worker, newest first. Operation 2 reports.
const SQUARE: [Event; 12] = [
    Event::Release {
        worker: 1,
        op: 2,
        place: 0,
    },
    Event::Publish { worker: 1, op: 2 },
    Event::Charge {
        worker: 1,
        op: 2,
        cost: 5,
    },
    Event::Claim { worker: 1, op: 2 },
    Event::Release {
        worker: 1,
        op: 1,
        place: 1,
    },
    Event::Release {
        worker: 1,
        op: 1,
        place: 0,
    },
    Event::Publish { worker: 1, op: 1 },
    Event::Charge {
        worker: 1,
        op: 1,
        cost: 4,
    },
    Event::Claim { worker: 1, op: 1 },
    Event::Publish { worker: 0, op: 0 },
    Event::Charge {
        worker: 0,
        op: 0,
        cost: 4,
    },
    Event::Claim { worker: 0, op: 0 },
];

#[test]
fn square_of_a_layer_under_no_budget(rt: HostRuntime) {
    let wires = [NONE, reads(0, 0), reports(1)];
    let setup = SetupLists {
        wires: &wires,
        costs: &[4, 4, 5],
        budget: 0,
        workers: 4,
    };
    assert!(rt; is_legal(&setup, &SQUARE));
    assert!(rt; all_finished_below(&setup, &SQUARE, 3));
    assert_eq!(rt; total(&setup, &SQUARE), 5);
    assert_eq!(rt; total(&setup, &SQUARE[1..]), 9);
    assert!(rt; !is_let_go(&setup, &SQUARE[6..], 0) && is_let_go(&setup, &SQUARE[4..], 0));
    let two_workers = SetupLists {
        workers: 1,
        ..setup
    };
    assert!(rt; !is_legal(&two_workers, &SQUARE));
    for at in 0..12usize {
        for how in 0..4 {
            let mut events = SQUARE;
            events[at] = spoiled(events[at], how);
            assert!(rt; !is_legal(&setup, &events), "event {at} spoiled by {how}");
        }
        if at > 0 {
            let mut events = SQUARE;
            events[at] = SQUARE[at - 1];
            events[at - 1] = SQUARE[at];
            assert!(rt; !is_legal(&setup, &events), "event {at} swapped");
            let mut shorter = SQUARE;
            for place in 1..=at {
                shorter[place] = SQUARE[place - 1];
            }
            assert!(rt; !is_legal(&setup, &shorter[1..]), "event {at} left out");
        }
    }
}

#[test]
fn second_charge_passes_the_budget(rt: HostRuntime) {
    let wires = [NONE, NONE, reads(0, 1), reports(2)];
    let setup = SetupLists {
        wires: &wires,
        costs: &[4, 4, 4, 5],
        budget: 6,
        workers: 2,
    };
    let events = [charge(1, 1, 4), charge(0, 0, 4), claim(1, 1), claim(0, 0)];
    assert!(rt; is_legal(&setup, &events[1..]));
    assert!(rt; !is_enabled(&setup, &events[1..], events[0]));
    assert!(rt; is_enabled(&setup, &events[1..], publish(0, 0)));
    assert!(rt; is_enabled(&setup, &events[1..], Event::Stop { worker: 1 }));
    assert!(rt; !is_enabled(&setup, &events[1..], Event::Stop { worker: 0 }));
    let wider = SetupLists { budget: 8, ..setup };
    assert!(rt; is_legal(&wider, &events));
}

/// The events that workers 0 and 1 may try on operations 0 to 3.
const CANDIDATES: u32 = 42;

fn candidate(setup: &SetupLists, number: u32) -> Event {
    let worker = number % 2;
    let op = number / 2 % 4;
    match number / 8 {
        0 => claim(worker, op),
        1 => charge(
            worker,
            op,
            setup.costs.get(op as usize).copied().unwrap_or(0),
        ),
        2 => publish(worker, op),
        3 => release(worker, op, 0),
        4 => release(worker, op, 1),
        _ => Event::Stop { worker },
    }
}

fn has_reader(setup: &SetupLists, past: &[Event], op: u32) -> bool {
    for place in 0..8u32 {
        let reader = place / 2;
        if input(setup.wires, reader, place % 2) == Some(op)
            && !is_released(past, reader, place % 2)
        {
            return true;
        }
    }
    false
}

/// A claimed operation's input is live while its place is out, and a published layer exactly while it is reported or read.
fn layers_live_while_read(setup: &SetupLists, past: &[Event]) -> bool {
    for place in 0..8u32 {
        let op = place / 2;
        if is_published(past, op)
            && is_live(setup, past, op)
                != (is_reported(setup.wires, op) || has_reader(setup, past, op))
        {
            return false;
        }
        if let Some(read) = input(setup.wires, op, place % 2) {
            if is_claimed(past, op)
                && !is_released(past, op, place % 2)
                && !is_live(setup, past, read)
            {
                return false;
            }
        }
    }
    true
}

/// The budget holds after the newest event, and two workers never hold one operation.
fn budget_holds(setup: &SetupLists, past: &[Event]) -> bool {
    let shared = held(setup, past, 0).is_some() && held(setup, past, 0) == held(setup, past, 1);
    let within = total(setup, past) <= setup.budget as u128;
    match past.first() {
        Some(Event::Charge { op, .. }) => !shared
            && (within || all_finished_below(setup, past, *op)),
        _ => !shared,
    }
}

fn can_go_on(setup: &SetupLists, past: &[Event]) -> bool {
    for number in 0..CANDIDATES - 2 {
        if is_enabled(setup, past, candidate(setup, number)) {
            return true;
        }
    }
    false
}

fn is_complete(setup: &SetupLists, past: &[Event]) -> bool {
    for op in 0..4u32 {
        if (op as usize) < setup.wires.len() && !is_finished(setup, past, op) {
            return false;
        }
    }
    true
}

/// How many histories were walked through, and how many of them are complete, stopped, or break a law.
#[derive(Clone, Copy, Debug, PartialEq, Eq)]
struct Walked {
    all: u32,
    complete: u32,
    stopped: u32,
    wrong: u32,
}

impl Walked {
    fn with(self, setup: &SetupLists, past: &[Event]) -> Walked {
        let complete = is_complete(setup, past);
        let stopped = is_stopped(past);
        let right = layers_live_while_read(setup, past)
            && budget_holds(setup, past)
            && (complete || stopped || can_go_on(setup, past));
        Walked {
            all: self.all.saturating_add(1),
            complete: self.complete.saturating_add(complete as u32),
            stopped: self.stopped.saturating_add(stopped as u32),
            wrong: self.wrong.saturating_add(!right as u32),
        }
    }
}

/// Walks through every legal history that goes on from the events at `at` and after.
fn walk(setup: &SetupLists, events: [Event; 20], at: usize, walked: Walked) -> Walked
    requires { at ≤ 20 }
{
    let mut walked = walked.with(setup, &events[at..]);
    if at == 0 {
        return walked;
    }
    for number in 0..CANDIDATES {
        let event = candidate(setup, number);
        if is_enabled(setup, &events[at..], event) {
            let mut longer = events;
            longer[at - 1] = event;
            walked = walk(setup, longer, at - 1, walked);
        }
    }
    walked
}

fn walk_all(wires: &[Wire], costs: &[u64], budget: u64, workers: u32) -> Walked {
    let setup = SetupLists {
        wires,
        costs,
        budget,
        workers,
    };
    let none = Walked {
        all: 0,
        complete: 0,
        stopped: 0,
        wrong: 0,
    };
    walk(&setup, [Event::Stop { worker: 0 }; 20], 20, none)
}

#[test]
fn every_history_of_a_small_wiring_keeps_the_laws(rt: HostRuntime) {
    let square = [NONE, reads(0, 0), reports(1)];
    let one = walk_all(&square, &[4, 4, 5], 0, 1);
    assert_eq!(rt;
        one,
        Walked {
            all: 16,
            complete: 1,
            stopped: 3,
            wrong: 0
        }
    );
    let two = walk_all(&square, &[4, 4, 5], 0, 2);
    assert!(rt;
        two.wrong == 0 && two.complete > 0 && two.all > 40,
        "{two:?}"
    );
    let pair = [
        NONE,
        NONE,
        Wire {
            first: Some(0),
            second: Some(1),
            reported: true,
        },
    ];
    for budget in [0, 4, 8, 12] {
        let walked = walk_all(&pair, &[4, 4, 4], budget, 2);
        assert!(rt;
            walked.wrong == 0 && walked.complete > 0 && walked.stopped > 0,
            "{walked:?}"
        );
    }
    let fan = [
        NONE,
        Wire {
            reported: true,
            ..NONE
        },
        reports(0),
        reports(0),
    ];
    let walked = walk_all(&fan, &[2, 1, 3, 1], 3, 2);
    assert!(rt; walked.wrong == 0 && walked.complete > 0, "{walked:?}");
}
