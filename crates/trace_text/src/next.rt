//! One line more.

ghost use Rattle.std.specs.Prelude.{◌≡◌, length, OnOk, ◌<◌, ◌^◌};
ghost use Rattle.trace_text.specs.Traces.{told};
ghost use Rattle.trace_text.specs.Working.Places.{admits, with_line, costs_or_events, place_behind, Finds};

use crate::place::LinePlace;
use crate::trace::Trace;
use std::alloc::AllocError;
use trace_line::{Line, take_line};

/// Whether the line is of the form for the place, where so many costs were read.
fn admits(place: LinePlace, costs: usize, line: Line) -> bool
    ensures { result ≡ admits place costs line }
{
    match (place, line) {
        (LinePlace::Title, Line::Title) => true,
        (LinePlace::Operations, Line::Operations(_)) => true,
        (LinePlace::Workers, Line::Workers(_)) => true,
        (LinePlace::Budget, Line::Budget(_)) => true,
        (LinePlace::Costs, Line::Cost { op, .. }) => op as usize == costs,
        (LinePlace::Events, Line::Step(_)) => true,
        (LinePlace::Events, Line::End) => true,
        _ => false,
    }
}

/// The line at the front of the text, where it is of the form for the place, and what stands behind it.
pub fn next_line(place: LinePlace, costs: usize, text: &[u8]) -> Option<(Line, &[u8])>
    ensures { Finds place costs text.now result }
{
    let (line, rest) = take_line(text)?;
    if admits(place, costs, line) {
        Some((line, rest))
    } else {
        None
    }
}

/// Keeps what the line says.
pub fn keep(trace: &mut Trace, line: Line) -> Result<(), AllocError>
    ensures { OnOk result (told trace.new ≡ with_line (told trace.old) line) }
{
    match line {
        Line::Title | Line::End => {}
        Line::Operations(count) => trace.history.operations = count,
        Line::Workers(count) => trace.history.workers = count,
        Line::Budget(budget) => trace.history.budget = budget,
        Line::Cost { cost, .. } => trace.costs.push(cost)?,
        Line::Step(event) => trace.history.events.push(event)?,
    }
    Ok(())
}

fn costs_or_events(trace: &Trace) -> LinePlace
    ensures { result ≡ costs_or_events (length trace.now.costs.items) trace.now.history.operations }
{
    if trace.costs.len() < trace.history.operations as usize {
        LinePlace::Costs
    } else {
        LinePlace::Events
    }
}

/// The place behind a line that was kept.
pub fn place_behind(place: LinePlace, line: Line, trace: &Trace) -> LinePlace
    ensures { result ≡ place_behind place line (told trace.now) }
{
    match place {
        LinePlace::Title => LinePlace::Operations,
        LinePlace::Operations => LinePlace::Workers,
        LinePlace::Workers => LinePlace::Budget,
        LinePlace::Budget | LinePlace::Costs => costs_or_events(trace),
        LinePlace::Events => match line {
            Line::End => LinePlace::Nothing,
            _ => LinePlace::Events,
        },
        LinePlace::Nothing => LinePlace::Nothing,
    }
}
