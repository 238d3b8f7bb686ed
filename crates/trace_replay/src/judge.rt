//! A trace is judged.

ghost use Rattle.std.specs.Prelude.{◌≡◌, ◌+◌, ◌≤◌, Bool, IfOk, IfErr};
ghost use Rattle.trace_replay.specs.Replays.{Replays, asking};
ghost use Rattle.trace_replay.specs.Refused.{FailsToReplay};
ghost use Rattle.trace_replay.specs.Working.Endings.{Concludes};

use crate::header::{Asked, mismatch};
use crate::rerun::rerun;
use crate::summary::Summary;
use layer_model::Wiring;
use ledger_table::Table;
use std::alloc::Global;
use trace_text::{
    Front, LONGEST_TRACE, LinePlace, TraceFault, TraceReason, TraceRefusal, read_front,
};

/// What the run came to whose trace the text is: one of the wiring, of 1 to 64 workers, and of this many workers and this
/// budget where they are given; each of its events was allowed, and every operation is finished at its end. Else the
/// text is refused at its first fault, or memory ran out.
pub fn replay(
    alloc: Global,
    wiring: &Wiring,
    workers: Option<u32>,
    budget: Option<u64>,
    text: &[u8],
) -> Result<Summary, TraceFault>
    ensures replayed { IfOk result (Replays (asking wiring.now workers budget) text.now) }
    ensures refused { IfErr result (FailsToReplay (asking wiring.now workers budget) text.now) }
{
    if text.len() > LONGEST_TRACE {
        return Err(refused(0, TraceReason::TooLong));
    }
    let front = read_front(alloc, text)?;
    let asked = Asked {
        wires: wiring.list(),
        workers,
        budget,
    };
    if let Some(line) = mismatch(&asked, front.lines, &front.trace) {
        return Err(refused(line, TraceReason::HeaderMismatch));
    }
    let history = &front.trace.history;
    let mut table = Table::new(alloc, wiring, history.budget, history.workers)?;
    match rerun(&mut table, &front.trace.costs, &history.events) {
        Err(barred) => {
            let line = event_line(front.trace.costs.len(), barred.index);
            Err(refused(line, barred.reason))
        }
        Ok(peak) => conclude(&front, table.is_complete(), peak),
    }
}

/// What the run came to, where the text was read to its end and every operation is finished.
fn conclude(front: &Front<'_>, is_complete: bool, peak: u128) -> Result<Summary, TraceFault>
    requires { front.now.lines ≤ 4194304 }
    ensures { Concludes front.now is_complete peak result }
{
    if front.place != LinePlace::Nothing {
        return Err(refused(front.lines + 1, TraceReason::Syntax));
    }
    if !is_complete {
        return Err(refused(front.lines, TraceReason::Unfinished));
    }
    if !front.rest.is_empty() {
        return Err(refused(front.lines + 1, TraceReason::Syntax));
    }
    Ok(Summary {
        operations: front.trace.history.operations,
        events: front.trace.history.events.len() as u64,
        peak,
    })
}

/// The line of an event, behind the title, three numbers and so many costs.
fn event_line(costs: usize, index: usize) -> u64
    requires { costs + index ≤ 4194304 }
    ensures { result ≡ 5 + costs + index }
{
    (5 + costs + index) as u64
}

fn refused(line: u64, reason: TraceReason) -> TraceFault
    ensures { result ≡ TraceFault.Refused (record { line = line; reason = reason }) }
{
    TraceFault::Refused(TraceRefusal { line, reason })
}
