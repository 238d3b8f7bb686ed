//! How far a text goes as the text of a trace.

ghost use Rattle.std.specs.Prelude.{◌≡◌, ◌≤◌, [], length, IfOk};
ghost use Rattle.trace_text.specs.Traces.{told};
ghost use Rattle.trace_text.specs.FrontOf.{IsFrontOf};

use crate::next::{keep, next_line, place_behind};
use crate::place::LinePlace;
use crate::trace::Trace;
use ledger_record::History;
use std::alloc::{AllocError, Global};

/// The first lines of a text, as far as they are those of some trace.
#[derive(Debug, Drop)]
pub struct Front<'a> {
    /// What the lines tell. A number without its line is 0.
    pub trace: Trace,
    /// The place of the line behind them.
    pub place: LinePlace,
    /// How many lines there are.
    pub lines: u64,
    /// What stands behind them, in which no line of the form for the place comes first.
    pub rest: &'a [u8],
}

fn empty(alloc: Global) -> Trace
    ensures { told result ≡ record { operations = 0; workers = 0; budget = 0; costs = []; events = [] } }
{
    Trace {
        history: History {
            operations: 0,
            workers: 0,
            budget: 0,
            events: Vec::new(alloc),
        },
        costs: Vec::new(alloc),
    }
}

/// The first lines of the text, as far as they are those of some trace. It fails only for want of memory.
pub fn read_front(alloc: Global, text: &[u8]) -> Result<Front<'_>, AllocError>
    ensures front { IfOk result (IsFrontOf text.now) }
    ensures few { IfOk result (λ front. front.lines ≤ length text.now) }
{
    let mut trace = empty(alloc);
    let mut place = LinePlace::Title;
    let mut lines = 0u64;
    let mut rest = text;
    while let Some((line, behind)) = next_line(place, trace.costs.len(), rest) {
        keep(&mut trace, line)?;
        place = place_behind(place, line, &trace);
        lines += 1;
        rest = behind;
    }
    Ok(Front {
        trace,
        place,
        lines,
        rest,
    })
}
