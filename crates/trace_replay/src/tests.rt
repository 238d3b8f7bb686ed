use crate::{Summary, replay};
use layer_model::{Wire, Wiring};
use std::alloc::{AllocError, Global};
use std::process::Abort;
use std::test::Fail;
use trace_text::{TraceFault, TraceReason, TraceRefusal};

// A layer taken twice by one operation, whose layer is reported, by two of four workers under no budget.
const SQUARE: &[u8] =
    b"DRCTRACE 1\noperations 2\nworkers 4\nbudget 0\ncost 0 4\ncost 1 4\nclaim 3 0\ncharge 3 0 4\npublish 3 0\nclaim 1 1\ncharge 1 1 4\npublish 1 1\nrelease 1 1 0\nrelease 1 1 1\nend\n";

// Two layers under a budget of 6, of which the second is charged while the first stands.
const TWO: &[u8] =
    b"DRCTRACE 1\noperations 3\nworkers 2\nbudget 6\ncost 0 4\ncost 1 4\ncost 2 4\nclaim 0 0\nclaim 1 1\ncharge 0 0 4\ncharge 1 1 4\n";

fn wire(first: Option<u32>, second: Option<u32>, reported: bool) -> Wire {
    Wire {
        first,
        second,
        reported,
    }
}

/// The refusal over the wires of a square, and line 0 with `Unfinished` where there is none.
fn refusal(
    alloc: Global,
    workers: Option<u32>,
    budget: Option<u64>,
    text: &[u8],
) -> Result<TraceRefusal, AllocError> {
    let wires = vec![in alloc; wire(None, None, false), wire(Some(0), Some(0), true)]?;
    let none = TraceRefusal {
        line: 0,
        reason: TraceReason::Unfinished,
    };
    Ok(match Wiring::checked(alloc, wires)? {
        Some(wiring) => match replay(alloc, &wiring, workers, budget, text) {
            Err(TraceFault::Refused(refusal)) => refusal,
            _ => none,
        },
        None => none,
    })
}

#[test]
fn a_square_is_replayed(rt: HostRuntime) -> Result<(), Fail> {
    let wires = vec![in rt.alloc(); wire(None, None, false), wire(Some(0), Some(0), true)]?;
    let wiring = Wiring::checked(rt.alloc(), wires)?;
    assert_eq!(rt; wiring.is_some(), true);
    if let Some(wiring) = wiring {
        let want = Summary {
            operations: 2,
            events: 8,
            peak: 8,
        };
        for (workers, budget) in [(None, None), (Some(4), Some(0))] {
            assert_eq!(rt; replay(rt.alloc(), &wiring, workers, budget, SQUARE)?, want);
        }
    }
    Ok(())
}

#[test]
fn a_charge_past_the_budget(rt: HostRuntime) -> Result<(), Fail> {
    let wires = vec![in rt.alloc();
        wire(None, None, false),
        wire(None, None, false),
        wire(Some(0), Some(1), true),
    ]?;
    let wiring = Wiring::checked(rt.alloc(), wires)?;
    assert_eq!(rt; wiring.is_some(), true);
    if let Some(wiring) = wiring {
        match replay(rt.alloc(), &wiring, None, None, TWO) {
            Err(TraceFault::Refused(found)) => {
                assert!(rt;
                    found.line == 11 && found.reason == TraceReason::NotEnabled,
                    "{found:?}"
                );
            }
            _ => assert!(rt; false, "it isn't refused"),
        }
    }
    Ok(())
}

#[test]
fn each_reason_at_its_line(rt: HostRuntime) -> Result<(), Fail> {
    let rows: [(&[u8], u64, TraceReason); 13] = [
        (
            b"DRCTRACE 1\noperations 3\nworkers 0\n",
            2,
            TraceReason::HeaderMismatch,
        ),
        (
            b"DRCTRACE 1\noperations 2\nworkers 0\nbudget -\n",
            3,
            TraceReason::HeaderMismatch,
        ),
        (
            b"DRCTRACE 1\noperations 2\nworkers 65\n",
            3,
            TraceReason::HeaderMismatch,
        ),
        (
            b"DRCTRACE 1\noperations 2\nworkers 4294967296\n",
            3,
            TraceReason::Syntax,
        ),
        (
            b"DRCTRACE 1\noperations 2\nworkers 4\nbudget 18446744073709551616\n",
            4,
            TraceReason::Syntax,
        ),
        (
            b"DRCTRACE 1\noperations 2\nworkers 4\nbudget 0\ncost 0 4\ncost 1 4\nclaim 0 1\nend\n",
            7,
            TraceReason::NotEnabled,
        ),
        (
            b"DRCTRACE 1\noperations 2\nworkers 4\nbudget 0\ncost 0 4\ncost 1 4\nclaim 0 0\ncharge 0 0 5\n",
            8,
            TraceReason::WrongCharge,
        ),
        (
            b"DRCTRACE 1\noperations 2\nworkers 4\nbudget 0\ncost 0 4\ncost 1 4\ncharge 0 0 5\n",
            7,
            TraceReason::WrongCharge,
        ),
        (
            b"DRCTRACE 1\noperations 2\nworkers 4\nbudget 0\ncost 0 4\ncost 1 4\ncharge 0 0 4\n",
            7,
            TraceReason::NotEnabled,
        ),
        (
            b"DRCTRACE 1\noperations 2\nworkers 4\nbudget 0\ncost 0 4\ncost 1 4\ncharge 0 7 0\n",
            7,
            TraceReason::NotEnabled,
        ),
        (
            b"DRCTRACE 1\noperations 2\nworkers 4\nbudget 0\ncost 0 4\ncost 1 4\nend\nend\n",
            7,
            TraceReason::Unfinished,
        ),
        (
            b"DRCTRACE 1\noperations 2\nworkers 4\nbudget 0\ncost 0 4\ncost 1 4\nclaim 0 0\nend",
            8,
            TraceReason::Syntax,
        ),
        (
            b"DRCTRACE 1\noperations 2\nworkers 4\nbudget 0\ncost 0 4\ncost 1 4\nclaim 0 0\nstop 0\n",
            8,
            TraceReason::Syntax,
        ),
    ];
    for (text, line, reason) in rows {
        let found = refusal(rt.alloc(), None, None, text)?;
        assert!(rt; found.line == line && found.reason == reason, "{found:?}");
    }
    Ok(())
}

#[test]
fn other_workers_or_another_budget(rt: HostRuntime) -> Result<(), Fail> {
    for (workers, budget, line) in [(Some(3), None, 3), (Some(4), Some(1), 4)] {
        let found = refusal(rt.alloc(), workers, budget, SQUARE)?;
        assert!(rt;
            found.line == line && found.reason == TraceReason::HeaderMismatch,
            "{found:?}"
        );
    }
    Ok(())
}
