//! The events of a trace are made again.

ghost use Rattle.std.specs.Prelude.{◌≡◌, ◌↔◌, [], IsTrue, IfOk, IfErr, IfSome, IfNone, OnOk};
ghost use Rattle.ledger_history.specs.Enabled.{Enabled, Legal};
ghost use Rattle.ledger_record.specs.Records.{past_of};
ghost use Rattle.ledger_table.specs.Ledgers.{with_event};
ghost use Rattle.trace_text.specs.Refusals.{IsWrongCharge};
ghost use Rattle.trace_replay.specs.Replays.{peak};
ghost use Rattle.trace_replay.specs.Working.Reruns.{setup_at, IsBarred, StopsAt, ledger_after};

use ledger_history::Event;
use ledger_table::Table;
use trace_text::TraceReason;

/// An event that may not be made: its index, and why.
#[derive(Clone, Copy, Debug)]
pub struct Barred {
    pub index: usize,
    pub reason: TraceReason,
}

fn is_wrong_charge(costs: &[u64], event: Event) -> bool
    ensures { IsTrue result ↔ IsWrongCharge costs.now event }
{
    match event {
        Event::Charge { op, cost, .. } => {
            let op = op as usize;
            op < costs.len() && costs[op] != cost
        }
        _ => false,
    }
}

/// Makes the event, or says why it may not be made.
fn step(table: &mut Table, costs: &[u64], event: Event) -> Option<TraceReason>
    ensures made { IfNone result (Enabled (setup_at costs.now table.old) table.old.events event) }
    ensures table { IfNone result (table.new ≡ with_event table.old event) }
    ensures barred { IfSome result (IsBarred (setup_at costs.now table.old) costs.now table.old.events event) }
{
    if is_wrong_charge(costs, event) {
        return Some(TraceReason::WrongCharge);
    }
    if !table.allows_at(costs, event) {
        return Some(TraceReason::NotEnabled);
    }
    table.make(event);
    None
}

/// Makes the events one after another, from nothing on. It answers the greatest total on the way, or the first event
/// that may not be made.
pub fn rerun(table: &mut Table, costs: &[u64], events: &[Event]) -> Result<u128, Barred>
    requires { table.old.events ≡ [] }
    ensures legal { OnOk result (Legal (setup_at costs.now table.old) (past_of events.now)) }
    ensures peak { IfOk result (λ most. most ≡ peak (setup_at costs.now table.old) (past_of events.now)) }
    ensures table { OnOk result (table.new ≡ ledger_after table.old events.now) }
    ensures barred { IfErr result (λ b. StopsAt (setup_at costs.now table.old) costs.now events.now b.index b.reason) }
{
    let mut peak = 0u128;
    for index in 0..events.len() {
        if let Some(reason) = step(table, costs, events[index]) {
            return Err(Barred { index, reason });
        }
        peak = peak.max(table.total());
    }
    Ok(peak)
}
