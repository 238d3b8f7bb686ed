//! What the events come to for one operation.

ghost use Rattle.std.specs.Prelude.{◌≡◌, ℕ, ◌+◌, ◌<◌, ◌≤◌, List, [], ◌∷◌, length, Some, slice_get, map, IfOk};
ghost use Rattle.layer_model.specs.declared.wiring.Wire.{Wire};
ghost use Rattle.layer_model.specs.Wirings.{IsWiring, input, one_if_at};
ghost use Rattle.ledger_history.specs.declared.event.Event.{Event};
ghost use Rattle.ledger_history.specs.Histories as history;
ghost use Rattle.ledger_history.specs.Histories.{returns};
ghost use Rattle.ledger_history.specs.Enabled.{Legal};
ghost use Rattle.ledger_table.specs.Marks.{MarksOf, MarksWith, wired, run_of, fresh};

use layer_model::{Wire, reader_counts};
use ledger_history::plain::{input_count, is_reported};
use std::alloc::{AllocError, Global};

/// What the events say of one operation: whether it is claimed, charged and published, how many of its places are
/// released, how many of its readers' places are out, and what it was charged.
#[derive(Clone, Copy, Debug)]
pub(crate) struct Mark {
    pub(crate) claimed: bool,
    pub(crate) charged: bool,
    pub(crate) published: bool,
    pub(crate) released: u32,
    pub(crate) left: u64,
    pub(crate) cost: u64,
}

/// The marks where nothing has happened. It fails only for want of memory.
pub(crate) fn fresh_marks(alloc: Global, wires: &[Wire]) -> Result<Vec<Mark>, AllocError>
    ensures { IfOk result (λ marks. MarksOf wires.now [] marks.items) }
{
    let counts = reader_counts(alloc, wires)?;
    let marks = marks_by_readers(alloc, &counts)?;
    Ok(marks)
}

fn marks_by_readers(alloc: Global, counts: &[u64]) -> Result<Vec<Mark>, AllocError>
    ensures { IfOk result (λ marks. marks.items ≡ map fresh counts.now) }
{
    counts.iter().map(|left| fresh_mark(*left)).collect(alloc)
}

fn fresh_mark(left: u64) -> Mark
    ensures { result ≡ fresh left }
{
    Mark {
        claimed: false,
        charged: false,
        published: false,
        released: 0,
        left,
        cost: 0,
    }
}

/// Whether the operation is finished.
pub(crate) fn is_done(wires: &[Wire], marks: &[Mark], op: u32) -> bool
    requires wiring { IsWiring wires.now }
    requires there { op < length marks.now }
    ensures { (budget workers : ℕ) (h : List Event) → MarksOf wires.now h marks.now → Legal (run_of wires.now budget workers h) h
        → result ≡ history.is_finished (wired wires.now) h op }
{
    let mark = &marks[op as usize];
    mark.published && input_count(wires, op) <= mark.released
}

/// Whether the layer of the operation is let go.
pub(crate) fn is_gone(wires: &[Wire], marks: &[Mark], op: u32) -> bool
    requires { op < length marks.now }
    ensures { (h : List Event) → MarksOf wires.now h marks.now → result ≡ history.is_let_go (wired wires.now) h op }
{
    let mark = &marks[op as usize];
    mark.published && !is_reported(wires, op) && mark.left == 0
}

pub(crate) fn mark_claimed(marks: &mut [Mark], op: u32)
    requires { op < length marks.old }
    ensures { (ws : List Wire) (h : List Event) (w : ℕ) → MarksOf ws h marks.old → MarksOf ws (Event.Claim w op ∷ h) marks.new }
{
    marks[op as usize].claimed = true;
}

pub(crate) fn mark_charged(marks: &mut [Mark], op: u32, cost: u64)
    requires { op < length marks.old }
    ensures { (ws : List Wire) (h : List Event) (w : ℕ) → MarksOf ws h marks.old → MarksOf ws (Event.Charge w op cost ∷ h) marks.new }
{
    let mark = &mut marks[op as usize];
    mark.charged = true;
    mark.cost = cost;
}

pub(crate) fn mark_published(marks: &mut [Mark], op: u32)
    requires { op < length marks.old }
    ensures { (ws : List Wire) (h : List Event) (w : ℕ) → MarksOf ws h marks.old → MarksOf ws (Event.Publish w op ∷ h) marks.new }
{
    marks[op as usize].published = true;
}

/// One more place of the operation is released. The layer that it reads isn't told yet.
pub(crate) fn mark_released(marks: &mut [Mark], op: u32)
    requires there { op < length marks.old }
    requires few { (m : Mark) → slice_get marks.old op ≡ Some m → m.released ≤ 2 }
    ensures { (ws : List Wire) (h : List Event) (w k : ℕ) → MarksOf ws h marks.old
        → MarksWith ws (Event.Release w op k ∷ h) (λ j. returns (wired ws) h j) marks.new }
{
    marks[op as usize].released += 1;
}

/// One place that reads the operation comes back.
pub(crate) fn mark_returned(marks: &mut [Mark], op: u32)
    requires there { op < length marks.old }
    requires left { (m : Mark) → slice_get marks.old op ≡ Some m → 0 < m.left }
    ensures { (ws : List Wire) (h : List Event) (back : ℕ → ℕ) → MarksWith ws h back marks.old
        → MarksWith ws h (λ j. one_if_at (Some op) j + back j) marks.new }
{
    marks[op as usize].left -= 1;
}
