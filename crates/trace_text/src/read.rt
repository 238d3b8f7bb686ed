//! A trace is read.

ghost use Rattle.std.specs.Prelude.{◌≡◌, ◌↔◌, ◌≤◌, [], length, IsTrue, IfOk, IfErr};
ghost use Rattle.trace_text.specs.Traces.{Spells, told, longest_trace};
ghost use Rattle.trace_text.specs.Faults.{FailsToRead};

use crate::fault::{TraceFault, TraceReason, TraceRefusal};
use crate::front::{Front, read_front};
use crate::place::LinePlace;
use crate::trace::Trace;
use std::alloc::Global;

/// The most bytes of a trace that is read.
pub const LONGEST_TRACE: usize = 4_194_304;

/// What the text tells, if it is the text of a trace and has at most [`LONGEST_TRACE`] bytes. Else it is refused at the
/// first line at which it isn't one, or memory ran out.
pub fn read_trace(alloc: Global, text: &[u8]) -> Result<Trace, TraceFault>
    ensures spelled { IfOk result (λ trace. Spells text.now (told trace)) }
    ensures short { IfOk result (λ trace. length text.now ≤ longest_trace) }
    ensures refused { IfErr result (FailsToRead text.now) }
{
    if text.len() > LONGEST_TRACE {
        return Err(refusal(0, TraceReason::TooLong));
    }
    let front = read_front(alloc, text)?;
    if is_whole(front.place, front.rest) {
        let Front { trace, .. } = front;
        Ok(trace)
    } else {
        Err(refusal(front.lines + 1, TraceReason::Syntax))
    }
}

fn is_whole(place: LinePlace, rest: &[u8]) -> bool
    ensures { IsTrue result ↔ ((place ≡ LinePlace.Nothing) × (rest.now ≡ [])) }
{
    place == LinePlace::Nothing && rest.is_empty()
}

fn refusal(line: u64, reason: TraceReason) -> TraceFault
    ensures { result ≡ TraceFault.Refused (record { line = line; reason = reason }) }
{
    TraceFault::Refused(TraceRefusal { line, reason })
}
