//! A history is printed.

ghost use Rattle.std.specs.Prelude.{◌≡◌, ◌<◌, ◌++◌, ◌^◌, ◌∷◌, [], ℕ, List, IfOk, OnOk, false, length, slice_index, map};
ghost use Rattle.std.specs.List.{AllByRecursion};
ghost use Rattle.ledger_history.specs.Histories.{is_stopped};
ghost use Rattle.ledger_record.specs.Records.{past, past_of};
ghost use Rattle.trace_line.specs.declared.line.Line.TheVariants.{Title, Operations, Workers, Budget, Step};
ghost use Rattle.trace_line.specs.Lines.{line_text};
ghost use Rattle.trace_text.specs.Traces.{text_of, cost_lines};
ghost use Rattle.trace_text.specs.Printed.{charged_cost, Prints};
ghost use Rattle.trace_text.specs.Working.Charges.{cost_with, HasTextIfNoStop, HeaderFits};

use ledger_history::Event;
use ledger_record::History;
use std::alloc::{AllocError, Global};
use trace_line::{Line, push_line};

/// The text of a history that nobody stopped, with the costs of its own charges: an operation that isn't charged costs 0.
/// It fails only for want of memory.
pub fn print_trace(alloc: Global, history: &History) -> Result<Vec<u8>, AllocError>
    requires { is_stopped (past history.now) ≡ false }
    ensures { IfOk result (λ text. Prints history.now text.items) }
{
    let costs = charged_costs(alloc, &history.events, history.operations)?;
    let mut text = Vec::new(alloc);
    push_header(
        &mut text,
        history.operations,
        history.workers,
        history.budget,
    )?;
    push_costs(&mut text, &costs)?;
    push_events(&mut text, &history.events)?;
    push_line(&mut text, Line::End)?;
    Ok(text)
}

/// The costs of the charges, by operation.
fn charged_costs(alloc: Global, events: &[Event], operations: u32) -> Result<Vec<u64>, AllocError>
    ensures count { IfOk result (λ costs. length costs.items ≡ operations) }
    ensures each { IfOk result
        (λ costs. (i : ℕ) → i < operations → slice_index costs.items i ≡ charged_cost (past_of events.now) i) }
{
    let mut costs = vec![in alloc; 0u64; operations as usize]?;
    for event in events {
        note_charge(&mut costs, *event);
    }
    Ok(costs)
}

fn note_charge(costs: &mut [u64], event: Event)
    ensures { (i : ℕ) → i < length costs.old → slice_index costs.new i ≡ cost_with event (slice_index costs.old i) i }
{
    if let Event::Charge { op, cost, .. } = event {
        let op = op as usize;
        if op < costs.len() {
            costs[op] = cost;
        }
    }
}

fn push_header(
    text: &mut Vec<u8>,
    operations: u32,
    workers: u32,
    budget: u64,
) -> Result<(), AllocError>
    ensures fit { HeaderFits operations workers budget }
    ensures text { OnOk result (text.new.items ≡ text.old.items
        ++ text_of (Title ∷ Operations operations ∷ Workers workers ∷ Budget budget ∷ [])) }
{
    push_line(text, Line::Title)?;
    push_line(text, Line::Operations(operations))?;
    push_line(text, Line::Workers(workers))?;
    push_line(text, Line::Budget(budget))
}

fn push_costs(text: &mut Vec<u8>, costs: &[u64]) -> Result<(), AllocError>
    requires { length costs.now < 2 ^ 32 }
    ensures text { OnOk result (text.new.items ≡ text.old.items ++ text_of (cost_lines 0 costs.now)) }
    ensures fit { (i : ℕ) → slice_index costs.now i < 2 ^ 64 }
{
    for (op, cost) in costs.iter().enumerate() {
        push_line(
            text,
            Line::Cost {
                op: op as u32,
                cost: *cost,
            },
        )?;
    }
    Ok(())
}

fn push_events(text: &mut Vec<u8>, events: &[Event]) -> Result<(), AllocError>
    ensures text { OnOk result (text.new.items ≡ text.old.items ++ text_of (map Step events.now)) }
    ensures fit { OnOk result (AllByRecursion HasTextIfNoStop events.now) }
{
    for event in events {
        push_step(text, *event)?;
    }
    Ok(())
}

fn push_step(text: &mut Vec<u8>, event: Event) -> Result<(), AllocError>
    ensures text { OnOk result (text.new.items ≡ text.old.items ++ line_text (Step event)) }
    ensures fits { HasTextIfNoStop event }
{
    push_line(text, Line::Step(event))
}
