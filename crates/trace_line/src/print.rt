//! A line as text.

ghost use Rattle.std.specs.Prelude.{◌≡◌, ◌++◌, OnOk};
ghost use Rattle.trace_line.specs.Lines.{line_text, event_text, one_number, two_numbers, three_numbers};

use crate::line::Line;
use itoa::{Buffer, Integer};
use ledger_history::Event;
use std::alloc::AllocError;

fn push_number<I: Integer>(text: &mut Vec<u8>, number: I) -> Result<(), AllocError>
    ensures { OnOk result (text.new.items ≡ text.old.items ++ I.text number) }
{
    text.extend_from_slice(Buffer::new().format(number).as_bytes())
}

#[tactic(auto, unfolding(crate::specs::Lines::line_feed))]
fn push_one(text: &mut Vec<u8>, a: u64) -> Result<(), AllocError>
    ensures { OnOk result (text.new.items ≡ text.old.items ++ one_number a) }
{
    push_number(text, a)?;
    text.extend_from_slice(b"\n")
}

#[tactic(auto, unfolding(crate::specs::Lines::space))]
fn push_two(text: &mut Vec<u8>, a: u32, b: u64) -> Result<(), AllocError>
    ensures { OnOk result (text.new.items ≡ text.old.items ++ two_numbers a b) }
{
    push_number(text, a)?;
    text.extend_from_slice(b" ")?;
    push_one(text, b)
}

#[tactic(auto, unfolding(crate::specs::Lines::space))]
fn push_three(text: &mut Vec<u8>, a: u32, b: u32, c: u64) -> Result<(), AllocError>
    ensures { OnOk result (text.new.items ≡ text.old.items ++ three_numbers a b c) }
{
    push_number(text, a)?;
    text.extend_from_slice(b" ")?;
    push_two(text, b, c)
}

#[tactic(auto, unfolding(crate::specs::Lines::before_claim, crate::specs::Lines::before_charge, crate::specs::Lines::before_publish, crate::specs::Lines::before_release))]
fn push_event(text: &mut Vec<u8>, event: Event) -> Result<(), AllocError>
    ensures { OnOk result (text.new.items ≡ text.old.items ++ event_text event) }
{
    match event {
        Event::Claim { worker, op } => {
            text.extend_from_slice(b"claim ")?;
            push_two(text, worker, op as u64)
        }
        Event::Charge { worker, op, cost } => {
            text.extend_from_slice(b"charge ")?;
            push_three(text, worker, op, cost)
        }
        Event::Publish { worker, op } => {
            text.extend_from_slice(b"publish ")?;
            push_two(text, worker, op as u64)
        }
        Event::Release { worker, op, place } => {
            text.extend_from_slice(b"release ")?;
            push_three(text, worker, op, place as u64)
        }
        Event::Stop { .. } => Ok(()),
    }
}

/// Puts the line's text at the end; a stop has none. It fails only for want of memory.
#[tactic(auto, unfolding(crate::specs::Lines::title, crate::specs::Lines::before_operations, crate::specs::Lines::before_workers, crate::specs::Lines::before_budget, crate::specs::Lines::before_cost, crate::specs::Lines::last_line))]
pub fn push_line(text: &mut Vec<u8>, line: Line) -> Result<(), AllocError>
    ensures { OnOk result (text.new.items ≡ text.old.items ++ line_text line) }
{
    match line {
        Line::Title => text.extend_from_slice(b"DRCTRACE 1\n"),
        Line::Operations(count) => {
            text.extend_from_slice(b"operations ")?;
            push_one(text, count as u64)
        }
        Line::Workers(count) => {
            text.extend_from_slice(b"workers ")?;
            push_one(text, count as u64)
        }
        Line::Budget(budget) => {
            text.extend_from_slice(b"budget ")?;
            push_one(text, budget)
        }
        Line::Cost { op, cost } => {
            text.extend_from_slice(b"cost ")?;
            push_two(text, op, cost)
        }
        Line::Step(event) => push_event(text, event),
        Line::End => text.extend_from_slice(b"end\n"),
    }
}
