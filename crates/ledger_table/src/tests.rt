//! Every run of one worker through a table, and events that may not happen.

use crate::Table;
use layer_model::{Wire, Wiring};
use ledger_history::Event;
use std::alloc::{AllocError, Global};
use std::process::Abort;
use std::test::Fail;

fn wire(first: Option<u32>, second: Option<u32>, reported: bool) -> Wire {
    Wire {
        first,
        second,
        reported,
    }
}

/// A table over the wiring 0, 1, 2 = 0 and 0, 3 = 2 and 1, where 3 is reported.
fn square_and_one(alloc: Global, budget: u64) -> Result<Option<Table>, AllocError> {
    let wires = vec![in alloc;
        wire(None, None, false),
        wire(None, None, false),
        wire(Some(0), Some(0), false),
        wire(Some(2), Some(1), true),
    ]?;
    match Wiring::checked(alloc, wires)? {
        Some(wiring) => Ok(Some(Table::new(alloc, &wiring, budget, 2)?)),
        None => Ok(None),
    }
}

/// Makes the event where it may happen.
fn try_make(table: &mut Table, event: Event) -> bool {
    let allowed = table.allows(event);
    if allowed {
        table.make(event);
    }
    allowed
}

#[test]
fn one_run_under_a_budget(rt: HostRuntime) -> Result<(), Fail> {
    let mut table = square_and_one(rt.alloc(), 6)?.ok_or("a wiring")?;
    let steps = [
        (Event::Claim { worker: 0, op: 0 }, true, 0),
        (Event::Claim { worker: 0, op: 1 }, false, 0),
        (Event::Claim { worker: 1, op: 1 }, true, 0),
        (
            Event::Charge {
                worker: 0,
                op: 0,
                cost: 4,
            },
            true,
            4,
        ),
        (
            Event::Charge {
                worker: 1,
                op: 1,
                cost: 4,
            },
            false,
            4,
        ),
        (Event::Publish { worker: 0, op: 0 }, true, 4),
        (
            Event::Charge {
                worker: 1,
                op: 1,
                cost: 4,
            },
            true,
            8,
        ),
        (Event::Publish { worker: 1, op: 1 }, true, 8),
        (Event::Claim { worker: 1, op: 3 }, false, 8),
        (Event::Claim { worker: 1, op: 2 }, true, 8),
        (
            Event::Charge {
                worker: 1,
                op: 2,
                cost: 1,
            },
            true,
            9,
        ),
        (Event::Publish { worker: 1, op: 2 }, true, 9),
        (
            Event::Release {
                worker: 1,
                op: 2,
                place: 1,
            },
            false,
            9,
        ),
        (
            Event::Release {
                worker: 1,
                op: 2,
                place: 0,
            },
            true,
            9,
        ),
        (
            Event::Release {
                worker: 1,
                op: 2,
                place: 1,
            },
            true,
            5,
        ),
        (Event::Claim { worker: 0, op: 3 }, true, 5),
        (
            Event::Charge {
                worker: 0,
                op: 3,
                cost: 7,
            },
            true,
            12,
        ),
        (Event::Publish { worker: 0, op: 3 }, true, 12),
        (
            Event::Release {
                worker: 0,
                op: 3,
                place: 0,
            },
            true,
            11,
        ),
        (Event::Stop { worker: 0 }, false, 11),
        (
            Event::Release {
                worker: 0,
                op: 3,
                place: 1,
            },
            true,
            7,
        ),
    ];
    for (at, (event, happens, total)) in steps.into_iter().enumerate() {
        assert!(rt; !table.is_complete());
        assert_eq!(rt; try_make(&mut table, event), happens, "step {at}");
        assert_eq!(rt; table.total(), total, "step {at}");
    }
    assert!(rt; table.is_complete() && table.next().is_none() && !table.is_stopped());
    assert_eq!(rt; table.into_events().len(), 16);
    Ok(())
}

#[test]
fn a_stop_ends_claims_and_charges(rt: HostRuntime) -> Result<(), Fail> {
    let mut table = square_and_one(rt.alloc(), 100)?.ok_or("a wiring")?;
    let costs = [4, 4, 1, 7];
    let steps = [
        (Event::Claim { worker: 0, op: 0 }, true),
        (Event::Claim { worker: 1, op: 1 }, true),
        (
            Event::Charge {
                worker: 0,
                op: 0,
                cost: 5,
            },
            false,
        ),
        (
            Event::Charge {
                worker: 0,
                op: 0,
                cost: 4,
            },
            true,
        ),
        (Event::Stop { worker: 0 }, false),
        (Event::Stop { worker: 1 }, true),
        (Event::Claim { worker: 1, op: 1 }, false),
        (Event::Publish { worker: 0, op: 0 }, true),
        (Event::Claim { worker: 0, op: 2 }, false),
    ];
    for (at, (event, happens)) in steps.into_iter().enumerate() {
        assert_eq!(rt; table.allows_at(&costs, event), happens, "step {at}");
        if happens {
            assert!(rt; try_make(&mut table, event), "step {at}");
        }
    }
    assert!(rt; table.is_stopped() && !table.is_complete());
    assert_eq!(rt; table.held(0), None);
    assert_eq!(rt; table.held(1), None);
    assert_eq!(rt; table.events().len(), 5);
    assert!(rt; table.is_charged(0) && table.is_published(0) && table.is_finished(0));
    assert!(rt; !table.is_let_go(0) && table.releases(2) == 0 && table.admits(1, 9));
    assert!(rt; table.wires().len() == 4 && table.budget() == 100 && table.workers() == 2);
    Ok(())
}
