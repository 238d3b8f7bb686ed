ghost use Rattle.std.specs.Prelude.{◌≡◌, IfOk, false, length};
ghost use Rattle.ledger_history.specs.Histories.{is_stopped};
ghost use Rattle.ledger_record.specs.Records.{past};

use crate::{TraceFault, TraceReason, TraceRefusal, print_trace, read_trace};
use ledger_history::Event;
use ledger_record::History;
use std::alloc::{AllocError, Global};
use std::process::Abort;
use std::test::Fail;

// A layer taken twice by one operation, whose layer is reported, by two of four workers under no budget.
const SQUARE: &[u8] =
    b"DRCTRACE 1\noperations 2\nworkers 4\nbudget 0\ncost 0 4\ncost 1 4\nclaim 3 0\ncharge 3 0 4\npublish 3 0\nclaim 1 1\ncharge 1 1 4\npublish 1 1\nrelease 1 1 0\nrelease 1 1 1\nend\n";

fn square(alloc: Global) -> Result<History, AllocError>
    ensures { IfOk result (λ h. is_stopped (past h) ≡ false) }
{
    let events = vec![in alloc;
        Event::Claim { worker: 3, op: 0 },
        Event::Charge {
            worker: 3,
            op: 0,
            cost: 4
        },
        Event::Publish { worker: 3, op: 0 },
        Event::Claim { worker: 1, op: 1 },
        Event::Charge {
            worker: 1,
            op: 1,
            cost: 4
        },
        Event::Publish { worker: 1, op: 1 },
        Event::Release {
            worker: 1,
            op: 1,
            place: 0
        },
        Event::Release {
            worker: 1,
            op: 1,
            place: 1
        },
    ]?;
    Ok(History {
        operations: 2,
        workers: 4,
        budget: 0,
        events,
    })
}

fn line_feeds(alloc: Global, count: usize) -> Result<Vec<u8>, AllocError>
    ensures { IfOk result (λ v. length v.items ≡ count) }
{
    vec![in alloc; b'\n'; count]
}

/// The refusal of the text, and line 0 with `Unfinished` where there is none.
fn refusal(alloc: Global, text: &[u8]) -> TraceRefusal {
    match read_trace(alloc, text) {
        Err(TraceFault::Refused(refusal)) => refusal,
        _ => TraceRefusal {
            line: 0,
            reason: TraceReason::Unfinished,
        },
    }
}

#[test]
fn a_trace_is_read_and_printed(rt: HostRuntime) -> Result<(), Fail> {
    let history = square(rt.alloc())?;
    let trace = read_trace(rt.alloc(), SQUARE)?;
    assert_eq!(rt; trace.costs.as_slice(), [4, 4].as_slice());
    assert!(rt; trace.history == history);
    let text = print_trace(rt.alloc(), &history)?;
    assert_eq!(rt; text.as_slice(), SQUARE);
    Ok(())
}

#[test]
fn a_history_without_events_is_printed(rt: HostRuntime) -> Result<(), Fail> {
    let empty = History {
        operations: 1,
        workers: 64,
        budget: 18_446_744_073_709_551_615,
        events: Vec::new(rt.alloc()),
    };
    let text = print_trace(rt.alloc(), &empty)?;
    let want =
        b"DRCTRACE 1\noperations 1\nworkers 64\nbudget 18446744073709551615\ncost 0 0\nend\n";
    assert_eq!(rt; text.as_slice(), want.as_slice());
    Ok(())
}

#[test]
fn texts_that_are_no_trace(rt: HostRuntime) {
    let rows: [(&[u8], u64); 14] = [
        (b"", 1),
        (b"DRCTRACE 2\n", 1),
        (b"DRCTRACE 1", 1),
        (b"DRCTRACE 1\noperations 4294967296\n", 2),
        (b"DRCTRACE 1\noperations 0\nworkers 4294967296\n", 3),
        (
            b"DRCTRACE 1\noperations 0\nworkers 1\nbudget 18446744073709551616\n",
            4,
        ),
        (b"DRCTRACE 1\noperations 1\nworkers 1\nbudget 0\nend\n", 5),
        (
            b"DRCTRACE 1\noperations 1\nworkers 1\nbudget 0\ncost 1 4\n",
            5,
        ),
        (
            b"DRCTRACE 1\noperations 0\nworkers 1\nbudget 0\ncost 0 4\n",
            5,
        ),
        (
            b"DRCTRACE 1\noperations 0\nworkers 1\nbudget 0\nstop 0\n",
            5,
        ),
        (
            b"DRCTRACE 1\noperations 0\nworkers 1\nbudget 0\nclaim 0 1\n",
            6,
        ),
        (
            b"DRCTRACE 1\noperations 0\nworkers 1\nbudget 0\nclaim 0 1\nend",
            6,
        ),
        (b"DRCTRACE 1\noperations 0\nworkers 1\nbudget 0\nend\n\n", 6),
        (
            b"DRCTRACE 1\noperations 0\nworkers 1\nbudget 0\nend\nend\n",
            6,
        ),
    ];
    for (text, line) in rows {
        let found = refusal(rt.alloc(), text);
        assert!(rt;
            found.line == line && found.reason == TraceReason::Syntax,
            "{found:?}"
        );
    }
}

#[test]
fn texts_at_the_limit(rt: HostRuntime) -> Result<(), Fail> {
    let long = line_feeds(rt.alloc(), 4_194_304)?;
    let too_long = line_feeds(rt.alloc(), 4_194_305)?;
    let found = refusal(rt.alloc(), &long);
    assert!(rt; found.line == 1 && found.reason == TraceReason::Syntax);
    let found = refusal(rt.alloc(), &too_long);
    assert!(rt; found.line == 0 && found.reason == TraceReason::TooLong);
    Ok(())
}
